// Lists what the reader gives of the response bytes on standard input: scanlist CODE [CUT [ROOM]]. The reader is told the request CODE, is
// handed pieces of CUT bytes and is lent ROOM words; neither of the two changes what is printed.
#![tactic(auto)]

mod argument;
mod lister;
mod show;

use argument::Asked;
use lister::list;
use program::Program;
use program::output::STDERR;
use program::word::Word;

const USAGE: &[u8] =
    b"usage: scanlist CODE [CUT [ROOM]]: lists what the reader gives of the response bytes on standard input to request CODE (two hex digits), in pieces of 1 to 65536 bytes with room for 3 to 24576 words\n";

// How the program is started, where it was not started so.
fn usage() {
    io::write_all(STDERR, USAGE);
}

// Lists the input as the words ask.
fn list_asked(program: Program<'_>) {
    let Some(asked) = Asked::by(program) else {
        usage();
        return;
    };
    if program.is_readable() {
        // what failed was said
        let _ = list(program, asked);
    }
}

fn main(rt: HostRuntime) {
    let program = Program {
        rt: &rt,
        name: b"scanlist",
    };
    match program.word(1) {
        Word::Help => {
            program.print(USAGE);
        }
        Word::Version => {
            program.print_version();
        }
        Word::Plain => list_asked(program),
        _ => usage(),
    }
}
