// The bench model of the scanner: idle, scanning or in protection stop, asked by requests and for samples, and set by the bench.
ghost use Rattle.std.specs.Prelude.{◌≡◌};
ghost use Rattle.paper.specs.Writing.{Writes};
ghost use Rattle.wire.specs.Descriptor.{info_descriptor, health_descriptor};
ghost use Rattle.wire.specs.Reply.{bytes_of_info, bytes_of_health};
ghost use Rattle.device.specs.Model.{state_after, health_now, behind_descriptor, sent, sends_samples, sample_sent};
ghost use Rattle.device.specs.Promises.{FreshModel, Asking, InAnother, MotorSet, ErrorSet, HealthSetting};
ghost use Rattle.device.specs.declared.model.State.TheVariants.{ProtectionStop};

use paper::refusal::Refusal;
use paper::write;
use wire::descriptor::Descriptor;
use wire::reply::{Health, Info};
use wire::request::{Kind, Request};
use wire::sample::Sample;

// What the scanner is doing; scanning remembers whether SCAN or FORCE_SCAN came last.
#[derive(Clone, Copy, Debug, PartialEq, Eq)]
pub enum State {
    Idle,
    Scanning,
    ForceScanning,
    ProtectionStop,
}

#[derive(Clone, Copy, Debug, PartialEq, Eq)]
pub struct Model {
    pub state: State,
    // Whether the bench says that the motor is stable.
    pub stable: bool,

    // Whether the status that the bench set is 1, and not 0.
    pub warning: bool,

    // The error code.
    pub error: u16,

    // The info that the bench gave at the start.
    pub info: Info,
}

// The model behind a request, and the count of bytes sent.
#[derive(Clone, Copy, Debug, PartialEq, Eq)]
pub struct Asked {
    pub model: Model,
    pub bytes: usize,
}

impl Model {
    #[tactic(auto, unfolding(crate::specs::Model::fresh))]
    pub fn new(info: Info) -> Model
        ensures { FreshModel info result }
    {
        Model {
            state: State::Idle,
            stable: false,
            warning: false,
            error: 0,
            info,
        }
    }

    // What the model sends on a request.
    #[tactic(auto, unfolding(crate::specs::Model::in_state, paper::specs::Outcome::if_given, paper::specs::Outcome::mapped, paper::specs::Refusals::outcome, paper::specs::Writing::fitting))]
    pub fn request(self, request: Request, out: &mut [u8]) -> Result<Asked, Refusal>
        ensures { Asking self request out.old result out.new }
    {
        let kind = request.kind();
        let bytes = self.send(kind, out)?;
        let state = self.state.after(kind);
        Ok(Asked {
            model: Model { state, ..self },
            bytes,
        })
    }

    #[tactic(auto, unfolding(crate::specs::Model::sample_sent, paper::specs::Outcome::refuse_if, paper::specs::Outcome::if_given, paper::specs::Outcome::mapped, paper::specs::Refusals::outcome, paper::specs::Writing::fitting))]
    pub fn sample(self, sample: Sample, out: &mut [u8]) -> Result<usize, Refusal>
        ensures { Writes (sample_sent self sample) out.old result out.new }
    {
        if !self.sends_samples() {
            return Err(Refusal::NoSampleSent);
        }
        sample.write(out)
    }

    #[tactic(auto, unfolding(crate::specs::Model::in_state))]
    pub fn fault(self) -> Model
        ensures { InAnother self ProtectionStop result }
    {
        let state = State::ProtectionStop;
        Model { state, ..self }
    }

    pub fn set_motor(self, stable: bool) -> Model
        ensures { MotorSet self stable result }
    {
        Model { stable, ..self }
    }

    pub fn set_error(self, error: u16) -> Model
        ensures { ErrorSet self error result }
    {
        Model { error, ..self }
    }

    // The status alone.
    pub fn set_status(self, status: u8) -> Result<Model, Refusal>
        ensures { HealthSetting self status self.error result }
    {
        self.set_health(status, self.error)
    }

    // Status and error code together.
    #[tactic(auto, unfolding(crate::specs::Model::setting, crate::specs::Model::with_health, paper::specs::Outcome::refuse_if, paper::specs::Outcome::mapped, paper::specs::Refusals::outcome))]
    pub fn set_health(self, status: u8, error: u16) -> Result<Model, Refusal>
        ensures { HealthSetting self status error result }
    {
        if 1 < status {
            return Err(Refusal::NotAReply);
        }
        Ok(Model {
            warning: status == 1,
            error,
            ..self
        })
    }

    #[tactic(auto, unfolding(crate::specs::Model::sends_samples))]
    fn sends_samples(self) -> bool
        ensures { result ≡ sends_samples self.state self.stable }
    {
        match self.state {
            State::ForceScanning => true,
            State::Scanning => self.stable,
            State::Idle | State::ProtectionStop => false,
        }
    }

    // What a request has the model send.
    #[tactic(auto, unfolding(crate::specs::Model::sent, crate::specs::Model::protected, wire::specs::Descriptor::scan_descriptor, paper::specs::Outcome::refuse_if, paper::specs::Writing::over, paper::specs::Outcome::if_given, paper::specs::Outcome::mapped, paper::specs::Refusals::outcome, paper::specs::Writing::fitting))]
    fn send(self, kind: Kind, out: &mut [u8]) -> Result<usize, Refusal>
        ensures { Writes (sent self kind) out.old result out.new }
    {
        match kind {
            Kind::Stop | Kind::Reset => Ok(0),
            Kind::Scan | Kind::ForceScan if self.state == State::ProtectionStop => Ok(0),
            Kind::Scan | Kind::ForceScan => write::write(&Descriptor::SCAN, out),
            Kind::GetInfo => send_info(self.info, out),
            Kind::GetHealth => send_health(self.health(), out),
            Kind::Other => Err(Refusal::CodeNotPermitted),
        }
    }

    #[tactic(auto, unfolding(crate::specs::Model::health_now, crate::specs::Model::protected))]
    fn health(self) -> Health
        ensures { result ≡ health_now self }
    {
        let status = if self.state == State::ProtectionStop {
            Health::ERROR
        } else {
            u8::from(self.warning)
        };
        Health {
            status,
            error: self.error,
        }
    }
}

impl State {
    // The state behind a request.
    #[tactic(auto, unfolding(crate::specs::Model::state_after, crate::specs::Model::protected))]
    fn after(self, kind: Kind) -> State
        ensures { result ≡ state_after kind self }
    {
        match kind {
            Kind::Reset => State::Idle,
            Kind::Other => self,
            _ if self == State::ProtectionStop => self,
            Kind::Scan => State::Scanning,
            Kind::ForceScan => State::ForceScanning,
            Kind::Stop | Kind::GetInfo | Kind::GetHealth => State::Idle,
        }
    }
}

// Each reply has its own descriptor, size and writer: one function that takes all three would be longer than the two.
fn send_info(info: Info, out: &mut [u8]) -> Result<usize, Refusal>
    ensures { Writes (behind_descriptor info_descriptor (bytes_of_info info)) out.old result out.new }
{
    let mut reply = [0u8; Info::BYTES];
    info.write(&mut reply)?;
    write::write_both(&Descriptor::INFO, &reply, out)
}

fn send_health(health: Health, out: &mut [u8]) -> Result<usize, Refusal>
    ensures { Writes (behind_descriptor health_descriptor (bytes_of_health health)) out.old result out.new }
{
    let mut reply = [0u8; Health::BYTES];
    health.write(&mut reply)?;
    write::write_both(&Descriptor::HEALTH, &reply, out)
}
