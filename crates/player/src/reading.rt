// Reading the script: standard input comes in pieces, and each line is run once it has come whole.
use super::{LINE, Store, World};
use std::io;
use std::io::Read;

// The most bytes that one read brings.
const PIECE: usize = 65536;

// One byte more than the longest line tells that it is too long.
const COMING: usize = LINE + 1;

// A read failed: what came before it has been run, and a line that has not come whole is none.
const UNREAD: &str = "replay: the script could not be read\n";

// A write failed: nobody would hear of what is run after it.
const UNWRITTEN: &str = "replay: the transcript could not be written\n";

// Runs the lines that a piece of the script ends.
fn take_piece(
    rt: &impl Print,
    world: &mut World<'_>,
    piece: &[u8],
    line: &mut Store<'_>,
    room: &mut [u8],
) -> io::Result<()> {
    for part in piece.split_inclusive(|b| *b == b'\n') {
        let Some(last) = part.strip_suffix(b"\n") else {
            line.fill(part);
            return Ok(());
        };
        line.fill(last);
        world.run_line(rt, line.bytes(), room)?;
        line.clear();
    }
    Ok(())
}

// Runs the script to its end, or says why it cannot. A proved loop has to end, and nothing says that a script does: the turns are counted, up to a number
// that no run uses up.
pub(crate) fn run<I: Read>(
    rt: &impl Print,
    input: &mut I,
    world: &mut World<'_>,
) -> Result<(), &'static str> {
    let mut piece = [0u8; PIECE];
    let mut line = [0u8; COMING];
    let mut line = Store::new(&mut line);
    let mut room = [0u8; LINE];
    for _ in 0..u64::MAX {
        let n = input.read(&mut piece).map_err(|_| UNREAD)?;
        if n == 0 {
            return Ok(());
        }
        take_piece(rt, world, &piece[..n], &mut line, &mut room).map_err(|_| UNWRITTEN)?;
    }
    Ok(())
}
