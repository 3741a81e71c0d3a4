// Where a search goes, and how far it is from anywhere on its board.
ghost use Rattle.std.specs.Prelude.{◌+◌, ◌*◌};
ghost use Rattle.table.specs.Lengths.{Known};

// The goal (x, y) of a board with these sides, and a table that has the length of each leg there.
#[derive(Clone, Copy)]
pub struct Goal<'t> {
    pub width: usize,
    pub height: usize,
    pub x: usize,
    pub y: usize,
    pub table: &'t [u32],
    ghost known: { Known (width * width + height * height) table.now },
}
