// Prints the listings of rings at the edges: all zeros, one byte short and one too many, head 128, a record that does not read, a full ring that
// has gone round, and then with a turn broken off before its last store and finished.
#![tactic(auto)]

ghost use Rattle.std.specs.Prelude.{◌≡◌, length};

// The descriptor of standard output.
const STDOUT_FILENO: i32 = 1;

// A ring's length, and one byte more.
const MEMORY: usize = 1 + 768 * ring::SLOTS;

const LONGER: usize = MEMORY + 1;

// More turns than slots.
const TURNS: u8 = 70;

// The listing of an image, and an empty line behind it. Its buffer is never too short.
fn print(image: &[u8]) {
    let mut text = [0u8; listing::ROOM];
    let n = listing::list(image, &mut text).unwrap_or(0);
    io::write_all(STDOUT_FILENO, &text[..n.min(listing::ROOM)]);
    io::write_all(STDOUT_FILENO, b"\n");
}

// A record with number i, one sample and 4 q2 in its first cell.
fn turn(i: u8) -> [u8; 754]
    ensures { 754 ≡ length result }
{
    let mut rec = [0u8; 754];
    rec[0] = 1;
    rec[1] = 4;
    rec[3] = i;
    rec[7] = 2;
    rec[8] = 2;
    rec[10] = 1;
    rec[12] = 3;
    rec[13] = 16;
    rec[31] = 4;
    rec[32] = 208;
    rec[33] = 2;
    rec[34] = 4;
    rec
}

// Adds turns numbered from 0, so many that the first of them are driven out.
fn go_round(mem: &mut [u8]) {
    for i in 0..TURNS {
        let _ = ring::add(mem, &turn(i));
    }
}

// All stores of a record but the last.
fn store_first(mem: &mut [u8], rec: &[u8]) {
    for k in 0..754 {
        let _ = ring::store(mem, rec, k);
    }
}

// A turn that is broken off before its last store, and then finished.
fn print_broken(mem: &mut [u8]) {
    let rec = turn(TURNS);
    store_first(mem, &rec);
    print(mem);
    let _ = ring::store(mem, &rec, 754);
    print(mem);
}

// An erased ring that goes round, and then takes one turn more.
fn print_round(mem: &mut [u8]) {
    let _ = ring::erase(mem);
    go_round(mem);
    print(mem);
    print_broken(mem);
}

fn main() {
    let mut image = [0u8; LONGER];
    print(&image[..MEMORY]);
    print(&image[..MEMORY - 1]);
    print(&image);
    image[0] = 128;
    print(&image[..MEMORY]);
    image[0] = 1;
    print(&image[..MEMORY]);
    print_round(&mut image[..MEMORY]);
}
