//! Between two lines of progress a second passes, also where a look comes late.
use statistics::{Board, Manner, Stage, show_progress};
use std::alloc::Global;
use std::io;
use std::io::Write;
use std::sync::Wait;
use std::test::Fail;
use std::time::Clock;
use test_console::clocks::Readings;
use test_console::fake::Fake;

/// What lines of progress are printed to, which ends with so many of them the run that they tell of.
#[derive(Drop)]
struct Lines<'a, R> {
    rt: &'a R,
    board: &'a Board,
    left: usize,
    text: Vec<u8>,
}

impl<R: Wait + Clock> Write for Lines<'_, R> {
    fn write(&mut self, buf: &[u8]) -> io::Result<usize> {
        self.text.extend_from_slice(buf)?;
        if buf.ends_with(b"\n") {
            self.left = self.left.saturating_sub(1);
        }
        if self.left == 0 {
            self.board.end_progress(self.rt);
        }
        Ok(buf.len())
    }

    fn flush(&mut self) -> io::Result<()> {
        Ok(())
    }
}

/// What the clock shows at a run's beginning and at each look, in milliseconds, how many lines there
/// are to be, and the lines.
type Row = (&'static [u64], usize, &'static str);

static ROWS: [Row; 4] = [
    (
        &[5_000, 5_999, 6_000, 6_999, 7_000],
        2,
        "c 1 s: reading\nc 2 s: reading\n",
    ),
    // the first look comes late, and the next line a second behind it
    (
        &[5_000, 8_900, 9_800, 9_899, 10_000],
        2,
        "c 3 s: reading\nc 5 s: reading\n",
    ),
    // a later one does
    (
        &[5_000, 6_000, 10_500, 11_400, 11_500, 12_499, 12_500],
        4,
        "c 1 s: reading\nc 5 s: reading\nc 6 s: reading\nc 7 s: reading\n",
    ),
    // the clock goes back
    (
        &[5_000, 8_000, 6_500, 8_999, 9_000],
        2,
        "c 3 s: reading\nc 4 s: reading\n",
    ),
];

/// The lines that are printed of a run by this clock until there are so many.
fn printed<R: Wait + Clock>(rt: &R, alloc: Global, left: usize) -> Vec<u8> {
    let board = Board::new(rt, Stage::Reading);
    let mut out = Lines {
        rt,
        board: &board,
        left,
        text: Vec::new(alloc),
    };
    show_progress(rt, &board, &mut out, Manner::Listed);
    out.text
}

#[test]
fn a_second_passes_between_two_lines(rt: HostRuntime) -> Result<(), Fail> {
    for (readings, left, wanted) in &ROWS {
        let clock = Readings::new(readings);
        let fake = Fake::by(&rt, &clock);
        let text = printed(&fake, rt.alloc(), *left);
        assert!(rt; text.as_slice() == wanted.as_bytes(), "{wanted}");
    }
    Ok(())
}
