// Prints what the reader and the gatherer make of edges that the scope paper names: empty input, a descriptor that begins at the second byte,
// and a distance of 0 beside another in one cell.
#![tactic(auto)]

use io::print_decimal;
use paper::refusal::Refusal;
use paper::unit::{AngleQ6, DistanceQ2};
use stream::Reader;
use turn::gather::Gatherer;
use wire::request::Request;
use wire::sample::Sample;

// The descriptor of standard output.
const STDOUT_FILENO: i32 = 1;

// A part of a line. (`println!` would make one write of a line, which is made of several here.)
fn print(label: &[u8], n: u64) {
    io::write_all(STDOUT_FILENO, label);
    print_decimal(STDOUT_FILENO, n);
}

// One call of a reader that was told SCAN.
fn show(name: &[u8], input: &[u8]) -> Result<(), Refusal> {
    let mut words = [0u16; 6];
    let reading = Reader::new().tell(Request::scan())?.read(input, &mut words);
    io::write_all(STDOUT_FILENO, name);
    print(b": taken ", reading.taken as u64);
    print(b" stop ", reading.stop as u64);
    print(b" skipped ", u64::from(reading.reader.skipped));
    print(b" held ", u64::from(reading.reader.n));
    io::write_all(STDOUT_FILENO, b"\n");
    Ok(())
}

// A turn of three samples in one cell, one of them with distance 0: the cell once it is closed.
fn nearest() -> Result<u16, Refusal> {
    let mut filling = [0u16; 360];
    let mut closed = [0u16; 360];
    let mut gatherer = Gatherer::new();
    for (start, distance) in [(true, 4000), (false, 0), (false, 1200), (true, 9)] {
        let sample = Sample {
            start,
            quality: 15,
            angle: AngleQ6(0),
            distance: DistanceQ2(distance),
        };
        gatherer = gatherer.sample(sample, &mut filling, &mut closed)?.gatherer;
    }
    Ok(closed[0])
}

fn show_all() -> Result<(), Refusal> {
    let bytes = [0xA5, 0xA5, 0x5A, 0x05, 0x00, 0x00, 0x40, 0x81];
    show(b"empty input", &bytes[..0])?;
    show(b"a descriptor from the second byte", &bytes)?;
    print(b"nearest of 4000, 0 and 1200: ", u64::from(nearest()?));
    io::write_all(STDOUT_FILENO, b"\n");
    Ok(())
}

// Nothing of this is refused; what was would end it, and be told.
fn main() {
    if let Err(refusal) = show_all() {
        print(b"refused ", u64::from(refusal.number()));
    }
}
