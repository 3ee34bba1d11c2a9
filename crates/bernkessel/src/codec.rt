// The codecs of requests, descriptors and samples.
ghost use Rattle.std.specs.Prelude.{◌≡◌, [], ◌∷◌, take};
ghost use Rattle.bernkessel.specs.Codec.{descriptor_in, descriptor_out, sample_read_out};
ghost use Rattle.bernkessel.specs.Promises.{RequestWritten, DescriptorWritten, DescriptorReads, SampleWritten, SampleRowWritten, SampleReads, SampleRowReads};

use crate::answer::{BkWritten, split};
use crate::sample::BkSample;
use paper::refusal::Refusal;
use wire::descriptor::Descriptor;
use wire::request::Request;
use wire::sample::Sample;

#[repr(C)]
#[derive(Clone, Copy, Default)]
pub struct BkDescriptor {
    pub length: u32,
    pub mode: u8,
    pub kind: u8,
}

#[repr(C)]
#[derive(Clone, Copy)]
pub struct BkDescriptorAnswer {
    pub descriptor: BkDescriptor,
    pub refusal: u8,
}

#[repr(C)]
#[derive(Clone, Copy)]
pub struct BkSampleAnswer {
    pub sample: BkSample,
    pub refusal: u8,
}

#[unsafe(no_mangle)]
pub extern "C" fn bk_request_write(code: u8, payload: &[u8], out: &mut [u8]) -> BkWritten
    ensures { RequestWritten code payload.now out.old result out.new }
{
    Request(code).write(payload, out).into()
}

#[unsafe(no_mangle)]
pub extern "C" fn bk_descriptor_write(descriptor: BkDescriptor, out: &mut [u8]) -> BkWritten
    ensures { DescriptorWritten descriptor out.old result out.new }
{
    Descriptor::from(descriptor).write(out).into()
}

#[unsafe(no_mangle)]
pub extern "C" fn bk_descriptor_read(bytes: &[u8]) -> BkDescriptorAnswer
    ensures { DescriptorReads bytes.now result }
{
    Descriptor::read(bytes).into()
}

#[unsafe(no_mangle)]
pub extern "C" fn bk_sample_write(sample: BkSample, out: &mut [u8]) -> BkWritten
    ensures { SampleWritten sample out.old result out.new }
{
    Sample::from(sample).write(out).into()
}

#[unsafe(no_mangle)]
pub extern "C" fn bk_sample_write_words(sample: BkSample, row: &mut [u16]) -> BkWritten
    ensures { SampleRowWritten sample row.old result row.new }
{
    Sample::from(sample).write_words(row).into()
}

#[unsafe(no_mangle)]
pub extern "C" fn bk_sample_read(bytes: &[u8]) -> BkSampleAnswer
    ensures { SampleReads bytes.now result }
{
    Sample::read(bytes).into()
}

// Of the first five bytes.
#[unsafe(no_mangle)]
pub extern "C" fn bk_sample_front(part: &[u8]) -> BkSampleAnswer
    ensures { SampleReads (take 5 part.now) result }
{
    Sample::front(part).into()
}

#[unsafe(no_mangle)]
pub extern "C" fn bk_sample_read_words(angle: u16, distance: u16, mark: u16) -> BkSampleAnswer
    ensures { SampleRowReads (angle ∷ distance ∷ mark ∷ []) result }
{
    Sample::read_words(angle, distance, mark).into()
}

impl From<BkDescriptor> for Descriptor {
    ghost from_gives = { λ c r. r ≡ descriptor_in c };

    #[tactic(auto, unfolding(crate::specs::Codec::descriptor_in))]
    fn from(c: BkDescriptor) -> Descriptor {
        Descriptor {
            length: c.length,
            mode: c.mode,
            kind: c.kind,
        }
    }
}

impl From<Descriptor> for BkDescriptor {
    ghost from_gives = { λ d r. r ≡ record { length = d.length; mode = d.mode; kind = d.kind } };

    fn from(d: Descriptor) -> BkDescriptor {
        BkDescriptor {
            length: d.length,
            mode: d.mode,
            kind: d.kind,
        }
    }
}

impl From<Result<Descriptor, Refusal>> for BkDescriptorAnswer {
    ghost from_gives = { λ a r. r ≡ descriptor_out a };

    #[tactic(auto, unfolding(crate::specs::Codec::descriptor_out, crate::specs::Answers::split))]
    fn from(read: Result<Descriptor, Refusal>) -> BkDescriptorAnswer {
        let (descriptor, refusal) = split(read.map(BkDescriptor::from), BkDescriptor::default());
        BkDescriptorAnswer {
            descriptor,
            refusal,
        }
    }
}

impl From<Result<Sample, Refusal>> for BkSampleAnswer {
    ghost from_gives = { λ a r. r ≡ sample_read_out a };

    #[tactic(auto, unfolding(crate::specs::Codec::sample_read_out, crate::specs::Sample::none, crate::specs::Answers::split))]
    fn from(read: Result<Sample, Refusal>) -> BkSampleAnswer {
        let (sample, refusal) = split(read.map(BkSample::from), BkSample::default());
        BkSampleAnswer { sample, refusal }
    }
}
