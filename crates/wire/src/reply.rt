// Single replies: the scanner's info and its health, written and read.
ghost use Rattle.paper.specs.Writing.{Writes};
ghost use Rattle.wire.specs.Reply.{bytes_of_info, bytes_of_health};
ghost use Rattle.wire.specs.Promises.{InfoIsRead, HealthIsRead};

use paper::refusal::Refusal;
use paper::{word, write};

#[derive(Clone, Copy, Debug, PartialEq, Eq)]
pub struct Info {
    pub model: u8,
    // Of the firmware.
    pub minor: u8,

    pub major: u8,
    pub hardware: u8,
    pub serial: [u8; 16],
}

#[derive(Clone, Copy, Debug, PartialEq, Eq)]
pub struct Health {
    pub status: u8,
    // The error code.
    pub error: u16,
}

impl Info {
    pub const BYTES: usize = 20;

    pub fn read(bytes: &[u8]) -> Result<Info, Refusal>
        ensures { InfoIsRead bytes.now result }
    {
        if bytes.len() != Info::BYTES {
            return Err(Refusal::NotAReply);
        }
        let mut serial = [0u8; 16];
        serial.copy_from_slice(&bytes[4..]);
        Ok(Info {
            model: bytes[0],
            minor: bytes[1],
            major: bytes[2],
            hardware: bytes[3],
            serial,
        })
    }

    pub fn write(self, out: &mut [u8]) -> Result<usize, Refusal>
        ensures { Writes (bytes_of_info self) out.old result out.new }
    {
        let head = [self.model, self.minor, self.major, self.hardware];
        write::write_both(&head, &self.serial, out)
    }
}

impl Health {
    pub const BYTES: usize = 3;

    // The highest status.
    pub const ERROR: u8 = 2;

    pub fn read(bytes: &[u8]) -> Result<Health, Refusal>
        ensures { HealthIsRead bytes.now result }
    {
        if bytes.len() != Health::BYTES {
            return Err(Refusal::NotAReply);
        }
        let status = bytes[0];
        if Health::ERROR < status {
            return Err(Refusal::NotAReply);
        }
        Ok(Health {
            status,
            error: word::word16(bytes[1], bytes[2]),
        })
    }

    pub fn write(self, out: &mut [u8]) -> Result<usize, Refusal>
        ensures { Writes (bytes_of_health self) out.old result out.new }
    {
        let status = self.status;
        if Health::ERROR < status {
            return Err(Refusal::NotAReply);
        }
        let code = word::bytes16(self.error);
        let bytes = [status, code[0], code[1]];
        write::write(&bytes, out)
    }
}
