// Document 01's limits and record sizes. Each stands once in the code, here, and once in specs/Limits.antt; a room is a product of them.
pub const SIDE: usize = 64;

pub const LINES: usize = SIDE + 1;

pub const ALLOWANCE_LIMIT: usize = SIDE;

pub const FLASH_RECORD: usize = 4;

pub const MARK_RECORD: usize = 2;

pub const BRACKET_RECORD: usize = 2;

pub const FLASH_ROOM: usize = SIDE * FLASH_RECORD;

pub const MARK_ROOM: usize = SIDE * MARK_RECORD;

pub const BRACKET_ROOM: usize = SIDE * LINES / 2 * BRACKET_RECORD;

pub const SLICE_LIMIT: usize = 3 * SIDE;

pub const BAG_ROOM: usize = SLICE_LIMIT * BRACKET_RECORD;

pub const RASTER_ROOM: usize = SIDE * SIDE;

pub const LIST_LIMIT: usize = 1024;

pub const FILE_ROOM: usize = 8192;
