// The bytes that every text of document 01 is made of. Each stands once in the code, here, and once in specs/.
pub const TAB: u8 = b'\t';

pub const FEED: u8 = b'\n';

pub const MINUS: u8 = b'-';

pub const COPPER: u8 = b'#';

pub const NONE: u8 = b'.';

pub const ZERO: u8 = b'0';
