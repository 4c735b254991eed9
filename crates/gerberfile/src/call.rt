// The numbers that a call names: each is a word from end to end.
ghost use Rattle.std.specs.Prelude.{◌≡◌};
ghost use Rattle.gerberfile.specs.Words.{word_number, ended, whole_number, whole_integer, asked_by};

use text::read::read_number;
use text::signed::read_signed;

// The version, the pitch and the origin that a call names.
#[derive(Clone, Copy, Debug, PartialEq, Eq)]
pub struct Call {
    pub version: u64,
    pub pitch: u64,
    pub x: i64,
    pub y: i64,
}

// Which word of the call is no number.
#[derive(Clone, Copy, Debug, PartialEq, Eq)]
pub enum WrongWord {
    Version,
    Pitch,
    X,
    Y,
}

impl WrongWord {
    // Its place in the call.
    pub fn number(self) -> u64
        ensures { result ≡ word_number self }
    {
        match self {
            WrongWord::Version => 2,
            WrongWord::Pitch => 3,
            WrongWord::X => 4,
            WrongWord::Y => 5,
        }
    }
}

// What stands at the start of a word, if it ends with the word.
fn ended<T: Copy>(read: Option<(T, usize)>, word: &[u8]) -> Option<T>
    ensures { result ≡ ended word.now read }
{
    let (value, next) = read?;
    if next == word.len() {
        Some(value)
    } else {
        None
    }
}

#[tactic(auto, unfolding(crate::specs::Words::whole_number))]
fn whole_number(word: &[u8]) -> Option<u64>
    ensures { result ≡ whole_number word.now }
{
    ended(read_number(word, 0, u64::MAX), word)
}

#[tactic(auto, unfolding(crate::specs::Words::whole_integer))]
fn whole_integer(word: &[u8]) -> Option<i64>
    ensures { result ≡ whole_integer word.now }
{
    ended(read_signed(word, 0, u64::MAX), word)
}

#[tactic(auto, unfolding(crate::specs::Words::asked_by))]
pub fn asked(version: &[u8], pitch: &[u8], x: &[u8], y: &[u8]) -> Result<Call, WrongWord>
    ensures { result ≡ asked_by version.now pitch.now x.now y.now }
{
    let version = whole_number(version).ok_or(WrongWord::Version)?;
    let pitch = whole_number(pitch).ok_or(WrongWord::Pitch)?;
    let x = whole_integer(x).ok_or(WrongWord::X)?;
    let y = whole_integer(y).ok_or(WrongWord::Y)?;
    Ok(Call {
        version,
        pitch,
        x,
        y,
    })
}
