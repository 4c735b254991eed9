// The longest job: its width, height and allowance are the limits. In specs/JobText it is `text_room`.
use grid::limits::SIDE;
use text::write::SIDE_DIGITS;

// `shape` and three fields, and the line feed.
const SHAPE_LINE: usize = 5 + 3 * (1 + SIDE_DIGITS) + 1;

// How many of the rows have a second digit, a third, a fourth.
const FROM_10: usize = (SIDE > 10) as usize * SIDE - (SIDE > 10) as usize * 10;

const FROM_100: usize = (SIDE > 100) as usize * SIDE - (SIDE > 100) as usize * 100;

const FROM_1000: usize = (SIDE > 1000) as usize * SIDE - (SIDE > 1000) as usize * 1000;

// `row`, two tabs, the squares and the line feed of each, and the digits of all.
const ROW_LINES: usize = SIDE * (3 + 2 + SIDE + 1) + SIDE + FROM_10 + FROM_100 + FROM_1000;

pub const TEXT_ROOM: usize = SHAPE_LINE + ROW_LINES;
