// The reader of the response stream.
ghost use Rattle.std.specs.Prelude.{◌≡◌};
ghost use Rattle.stream.specs.Stops.{stop_number};
ghost use Rattle.bernkessel.specs.Reader.{phase_in, phase_out, reader_in, reader_out, told_out, reading_out};
ghost use Rattle.bernkessel.specs.Promises.{ReaderMade, ReaderTells, ReaderReads};

use crate::answer::split;
use paper::refusal::Refusal;
use stream::{Phase, Reader, Reading, Stop};
use wire::request::Request;

// The bytes of the phases; any other byte is IDLE.
pub const IDLE: u8 = 0;

pub const SEEK_INFO: u8 = 1;

pub const SEEK_HEALTH: u8 = 2;

pub const SEEK_SCAN: u8 = 3;

pub const INFO_REPLY: u8 = 4;

pub const HEALTH_REPLY: u8 = 5;

pub const SCANNING: u8 = 6;

// The paper's numbers of the stops.
pub const ALL_TAKEN: u8 = 0;

pub const NO_ROOM: u8 = 1;

pub const DESCRIPTOR: u8 = 2;

pub const REPLY: u8 = 3;

pub const BAD_HEALTH: u8 = 4;

#[repr(C)]
#[derive(Clone, Copy)]
pub struct BkReader {
    pub phase: u8,
    pub n: u8,
    pub held: [u8; 20],
    pub skipped: u32,
}

#[repr(C)]
#[derive(Clone, Copy)]
pub struct BkTold {
    pub reader: BkReader,
    pub refusal: u8,
}

#[repr(C)]
#[derive(Clone, Copy)]
pub struct BkReading {
    pub reader: BkReader,
    pub taken: usize,
    pub words: usize,
    pub stop: u8,
    pub reply: [u8; 20],
}

#[unsafe(no_mangle)]
pub extern "C" fn bk_reader_new() -> BkReader
    ensures { ReaderMade result }
{
    Reader::new().into()
}

#[unsafe(no_mangle)]
pub extern "C" fn bk_reader_tell(reader: BkReader, code: u8) -> BkTold
    ensures { ReaderTells reader code result }
{
    told_out(reader, Reader::from(reader).tell(Request(code)))
}

#[unsafe(no_mangle)]
pub extern "C" fn bk_reader_read(reader: BkReader, input: &[u8], words: &mut [u16]) -> BkReading
    ensures { ReaderReads reader input.now words.old result words.new }
{
    Reader::from(reader).read(input, words).into()
}

#[tactic(auto, unfolding(crate::specs::Reader::phase_in, crate::specs::Reader::phase_out))]
fn phase_in(b: u8) -> Phase
    ensures { result ≡ phase_in b }
{
    match b {
        SEEK_INFO => Phase::SeekInfo,
        SEEK_HEALTH => Phase::SeekHealth,
        SEEK_SCAN => Phase::SeekScan,
        INFO_REPLY => Phase::InfoReply,
        HEALTH_REPLY => Phase::HealthReply,
        SCANNING => Phase::Scanning,
        _ => Phase::Idle,
    }
}

#[tactic(auto, unfolding(crate::specs::Reader::phase_out))]
fn phase_out(phase: Phase) -> u8
    ensures { result ≡ phase_out phase }
{
    match phase {
        Phase::Idle => IDLE,
        Phase::SeekInfo => SEEK_INFO,
        Phase::SeekHealth => SEEK_HEALTH,
        Phase::SeekScan => SEEK_SCAN,
        Phase::InfoReply => INFO_REPLY,
        Phase::HealthReply => HEALTH_REPLY,
        Phase::Scanning => SCANNING,
    }
}

#[tactic(auto, unfolding(stream::specs::Stops::stop_number))]
pub(crate) fn stop_out(stop: Stop) -> u8
    ensures { result ≡ stop_number stop }
{
    match stop {
        Stop::AllTaken => ALL_TAKEN,
        Stop::NoRoom => NO_ROOM,
        Stop::Descriptor => DESCRIPTOR,
        Stop::Reply => REPLY,
        Stop::BadHealth => BAD_HEALTH,
    }
}

impl From<BkReader> for Reader {
    ghost from_gives = { λ c r. r ≡ reader_in c };

    #[tactic(auto, unfolding(crate::specs::Reader::reader_in))]
    fn from(c: BkReader) -> Reader {
        let BkReader {
            phase,
            n,
            held,
            skipped,
        } = c;
        Reader {
            phase: phase_in(phase),
            n,
            held,
            skipped,
        }
    }
}

impl From<Reader> for BkReader {
    ghost from_gives = { λ s r. r ≡ reader_out s };

    #[tactic(auto, unfolding(crate::specs::Reader::reader_out))]
    fn from(reader: Reader) -> BkReader {
        let Reader {
            phase,
            n,
            held,
            skipped,
        } = reader;
        BkReader {
            phase: phase_out(phase),
            n,
            held,
            skipped,
        }
    }
}

#[tactic(auto, unfolding(crate::specs::Reader::told_out, crate::specs::Answers::split))]
fn told_out(was: BkReader, told: Result<Reader, Refusal>) -> BkTold
    ensures { result ≡ told_out was told }
{
    let (reader, refusal) = split(told.map(BkReader::from), was);
    BkTold { reader, refusal }
}

impl From<Reading> for BkReading {
    ghost from_gives = { λ a r. r ≡ reading_out a };

    #[tactic(auto, unfolding(crate::specs::Reader::reading_out))]
    fn from(reading: Reading) -> BkReading {
        let Reading {
            reader,
            taken,
            words,
            stop,
            reply,
        } = reading;
        BkReading {
            reader: reader.into(),
            taken,
            words,
            stop: stop_out(stop),
            reply,
        }
    }
}
