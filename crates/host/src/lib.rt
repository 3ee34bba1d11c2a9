// The recorder's core: session, reader and gatherer joined in one value, so that a request tells all of them, and the serial for the records.
#![tactic(auto)]

mod note;
pub mod number;
mod ready;

ghost use Rattle.std.specs.Prelude.{◌≡◌};
ghost use Rattle.host.specs.Promises.{Made, Asks, Hears, Turns};

use note::{kept, waited};
use paper::refusal::Refusal;
use ready::make_ready;
use session::Session;
use stream::{Reader, Stop};
use turn::gather::Gatherer;
use wire::request::Request;

#[derive(Clone, Copy)]
pub struct Host {
    pub session: Session,
    pub reader: Reader,
    pub gatherer: Gatherer,
    // That of the last info reply; zeros before the first.
    pub serial: [u8; 16],
}

// The host after a request, and the count of bytes to send.
#[derive(Clone, Copy)]
pub struct Asked {
    pub host: Host,
    pub bytes: usize,
}

// What a call of the reader answers, with the host after it.
#[derive(Clone, Copy)]
pub struct Heard {
    pub host: Host,
    pub taken: usize,
    pub words: usize,
    pub stop: Stop,
    pub reply: [u8; 20],
}

// The host after a row, how many of its words were taken, and how many samples a turn has that closed; its record is ready then.
#[derive(Clone, Copy)]
pub struct Turned {
    pub host: Host,
    pub words: usize,
    pub turn: Option<u16>,
}

impl Host {
    pub fn new() -> Host
        ensures { Made result }
    {
        Host {
            session: Session::new(),
            reader: Reader::new(),
            gatherer: Gatherer::new(),
            serial: [0u8; 16],
        }
    }

    // A request that the session sends is told to the reader, which takes all that the session sends, and drops an open turn.
    pub fn send(
        self,
        time: u64,
        request: Request,
        payload: &[u8],
        out: &mut [u8],
    ) -> Result<Asked, Refusal>
        ensures { Asks self time request payload.now out.old result out.new }
    {
        let sent = self.session.send(time, request, payload, out)?;
        let told = self.reader.tell(request).unwrap_or(self.reader);
        let dropped = self.gatherer.request();
        let host = Host {
            session: sent.session,
            reader: told,
            gatherer: dropped,
            ..self
        };
        Ok(Asked {
            host,
            bytes: sent.bytes,
        })
    }

    // Bytes from the scanner; the end of a reply ends the awaiting, and the serial of an info reply is kept.
    pub fn read(self, input: &[u8], words: &mut [u16]) -> Heard
        ensures { Hears self input.now words.old result words.new }
    {
        let reading = self.reader.read(input, words);
        let reply = reading.reply;
        let serial = kept(self.reader.phase, reading.stop, &reply, self.serial);
        let host = Host {
            session: waited(self.session, reading.stop),
            reader: reading.reader,
            gatherer: self.gatherer,
            serial,
        };
        Heard {
            host,
            taken: reading.taken,
            words: reading.words,
            stop: reading.stop,
            reply,
        }
    }

    // A row of the reader's words, up to and including a sample that closes a turn; the turn's record gets the number.
    pub fn gather(
        self,
        row: &[u16],
        number: u32,
        filling: &mut [u16; 360],
        closed: &mut [u16; 360],
        rec: &mut [u8; 754],
    ) -> Result<Turned, Refusal>
        ensures { Turns self row.now number filling.old closed.old rec.old result filling.new closed.new rec.new }
    {
        let taken = self.gatherer.row(row, filling, closed)?;
        let turn = taken.gathered.turn;
        if let Some(n) = turn {
            let serial = self.serial;
            make_ready(number, n, &serial, closed, rec);
        }
        let host = Host {
            gatherer: taken.gathered.gatherer,
            ..self
        };
        Ok(Turned {
            host,
            words: taken.words,
            turn,
        })
    }
}
