// The bench model of the scanner.
ghost use Rattle.std.specs.Prelude.{◌≡◌};
ghost use Rattle.bernkessel.specs.Model.{state_in, state_out, model_in, model_out, asked_out, health_set_out};
ghost use Rattle.bernkessel.specs.Promises.{ModelFresh, ModelAsks, ModelSends, ModelFaults, ModelMotor, ModelError, ModelHealth, ModelStatus};

use crate::answer::{BkWritten, split};
use crate::replies::BkInfo;
use crate::sample::BkSample;
use device::model::{Asked, Model, State};
use paper::refusal::Refusal;
use wire::request::Request;

// The bytes of the states; any other byte is MODEL_IDLE.
pub const MODEL_IDLE: u8 = 0;

pub const MODEL_SCANNING: u8 = 1;

pub const MODEL_FORCE_SCANNING: u8 = 2;

pub const MODEL_PROTECTION_STOP: u8 = 3;

// The motor is stable, and the status set is 1, where their bytes are not 0.
#[repr(C)]
#[derive(Clone, Copy)]
pub struct BkModel {
    pub info: BkInfo,
    pub error: u16,
    pub state: u8,
    pub stable: u8,
    pub warning: u8,
}

#[repr(C)]
#[derive(Clone, Copy)]
pub struct BkAsked {
    pub model: BkModel,
    pub written: BkWritten,
}

#[repr(C)]
#[derive(Clone, Copy)]
pub struct BkHealthSet {
    pub model: BkModel,
    pub refusal: u8,
}

#[unsafe(no_mangle)]
pub extern "C" fn bk_model_new(info: BkInfo) -> BkModel
    ensures { ModelFresh info result }
{
    Model::new(info.into()).into()
}

#[unsafe(no_mangle)]
pub extern "C" fn bk_model_request(model: BkModel, code: u8, out: &mut [u8]) -> BkAsked
    ensures { ModelAsks model code out.old result out.new }
{
    asked_out(model, Model::from(model).request(Request(code), out))
}

#[unsafe(no_mangle)]
pub extern "C" fn bk_model_sample(model: BkModel, sample: BkSample, out: &mut [u8]) -> BkWritten
    ensures { ModelSends model sample out.old result out.new }
{
    Model::from(model).sample(sample.into(), out).into()
}

#[unsafe(no_mangle)]
pub extern "C" fn bk_model_fault(model: BkModel) -> BkModel
    ensures { ModelFaults model result }
{
    Model::from(model).fault().into()
}

#[tactic(auto, unfolding(crate::specs::Answers::flag_in))]
#[unsafe(no_mangle)]
pub extern "C" fn bk_model_set_motor(model: BkModel, stable: u8) -> BkModel
    ensures { ModelMotor model stable result }
{
    Model::from(model).set_motor(stable != 0).into()
}

#[unsafe(no_mangle)]
pub extern "C" fn bk_model_set_error(model: BkModel, error: u16) -> BkModel
    ensures { ModelError model error result }
{
    Model::from(model).set_error(error).into()
}

#[tactic(auto, unfolding(crate::specs::Model::model_in))]
#[unsafe(no_mangle)]
pub extern "C" fn bk_model_set_status(model: BkModel, status: u8) -> BkHealthSet
    ensures { ModelStatus model status result }
{
    health_set_out(model, Model::from(model).set_status(status))
}

#[unsafe(no_mangle)]
pub extern "C" fn bk_model_set_health(model: BkModel, status: u8, error: u16) -> BkHealthSet
    ensures { ModelHealth model status error result }
{
    health_set_out(model, Model::from(model).set_health(status, error))
}

#[tactic(auto, unfolding(crate::specs::Model::state_in, crate::specs::Model::state_out))]
fn state_in(b: u8) -> State
    ensures { result ≡ state_in b }
{
    match b {
        MODEL_SCANNING => State::Scanning,
        MODEL_FORCE_SCANNING => State::ForceScanning,
        MODEL_PROTECTION_STOP => State::ProtectionStop,
        _ => State::Idle,
    }
}

#[tactic(auto, unfolding(crate::specs::Model::state_out))]
fn state_out(state: State) -> u8
    ensures { result ≡ state_out state }
{
    match state {
        State::Idle => MODEL_IDLE,
        State::Scanning => MODEL_SCANNING,
        State::ForceScanning => MODEL_FORCE_SCANNING,
        State::ProtectionStop => MODEL_PROTECTION_STOP,
    }
}

impl From<BkModel> for Model {
    ghost from_gives = { λ c r. r ≡ model_in c };

    #[tactic(auto, unfolding(crate::specs::Model::model_in, crate::specs::Answers::flag_in))]
    fn from(c: BkModel) -> Model {
        Model {
            state: state_in(c.state),
            stable: c.stable != 0,
            warning: c.warning != 0,
            error: c.error,
            info: c.info.into(),
        }
    }
}

impl From<Model> for BkModel {
    ghost from_gives = { λ m r. r ≡ model_out m };

    #[tactic(auto, unfolding(crate::specs::Model::model_out, crate::specs::Answers::flag_out))]
    fn from(model: Model) -> BkModel {
        BkModel {
            info: model.info.into(),
            error: model.error,
            state: state_out(model.state),
            stable: u8::from(model.stable),
            warning: u8::from(model.warning),
        }
    }
}

#[tactic(auto, unfolding(crate::specs::Model::asked_out, crate::specs::Answers::written_out))]
fn asked_out(was: BkModel, asked: Result<Asked, Refusal>) -> BkAsked
    ensures { result ≡ asked_out was asked }
{
    BkAsked {
        model: asked.map_or(was, |a| a.model.into()),
        written: asked.map(|a| a.bytes).into(),
    }
}

#[tactic(auto, unfolding(crate::specs::Model::health_set_out, crate::specs::Answers::split))]
fn health_set_out(was: BkModel, set: Result<Model, Refusal>) -> BkHealthSet
    ensures { result ≡ health_set_out was set }
{
    let (model, refusal) = split(set.map(BkModel::from), was);
    BkHealthSet { model, refusal }
}
