// Descriptors: what announces a reply, written and read, and the three that are expected.
ghost use Rattle.paper.specs.Writing.{Writes};
ghost use Rattle.wire.specs.Descriptor.{bytes_of_descriptor};
ghost use Rattle.wire.specs.Promises.{DescriptorIsRead};

use crate::request::Request;
use paper::refusal::Refusal;
use paper::{word, write};

#[derive(Clone, Copy, Debug, PartialEq, Eq)]
pub struct Descriptor {
    pub length: u32,
    pub mode: u8,
    pub kind: u8,
}

impl Descriptor {
    // The second byte of a descriptor.
    pub const FLAG: u8 = 0x5A;

    // How many lengths there are: the length field has 30 bits.
    pub const LENGTHS: u32 = 0x40000000;

    // The expected descriptors.
    pub const SCAN: [u8; 7] = [Request::START, Self::FLAG, 0x05, 0, 0, 0x40, 0x81];

    pub const INFO: [u8; 7] = [Request::START, Self::FLAG, 0x14, 0, 0, 0, 0x04];

    pub const HEALTH: [u8; 7] = [Request::START, Self::FLAG, 0x03, 0, 0, 0, 0x06];

    pub fn read(bytes: &[u8]) -> Result<Descriptor, Refusal>
        ensures { DescriptorIsRead bytes.now result }
    {
        if bytes.len() != 7 {
            return Err(Refusal::NotADescriptor);
        }
        if bytes[0] != Request::START {
            return Err(Refusal::NotADescriptor);
        }
        if bytes[1] != Descriptor::FLAG {
            return Err(Refusal::NotADescriptor);
        }
        let w = word::word32(bytes[2], bytes[3], bytes[4], bytes[5]);
        let mode = w / Descriptor::LENGTHS;
        if 1 < mode {
            return Err(Refusal::NotADescriptor);
        }
        Ok(Descriptor {
            length: w % Descriptor::LENGTHS,
            mode: mode as u8,
            kind: bytes[6],
        })
    }

    pub fn write(self, out: &mut [u8]) -> Result<usize, Refusal>
        ensures { Writes (bytes_of_descriptor self) out.old result out.new }
    {
        let length = self.length;
        let mode = self.mode;
        if 1 < mode {
            return Err(Refusal::NotADescriptor);
        }
        if Descriptor::LENGTHS <= length {
            return Err(Refusal::NotADescriptor);
        }
        let w = word::bytes32(length + u32::from(mode) * Descriptor::LENGTHS);
        let bytes = [
            Request::START,
            Descriptor::FLAG,
            w[0],
            w[1],
            w[2],
            w[3],
            self.kind,
        ];
        write::write(&bytes, out)
    }
}
