// The version of a file: whether its attribute stands in a comment or in a command of its own.
ghost use Rattle.std.specs.Prelude.{◌≡◌, IfOk};
ghost use Rattle.grid.specs.Answers.{check, first_refusal, version_unknown, answered};
ghost use Rattle.gerber.specs.File.{version_known, format_checks};
ghost use Rattle.gerber.specs.Format.{number_of};

use crate::centres::Plane;
use grid::answers::Refusal;

#[derive(Clone, Copy, Debug, PartialEq, Eq)]
pub enum Version {
    Comments,
    Attributes,
}

impl TryFrom<u64> for Version {
    type Error = Refusal;

    ghost try_from_gives = { λ version r. (answered r ≡ check (version_known version) version_unknown) × IfOk r (λ v. number_of v ≡ version) };

    // 21.
    fn try_from(version: u64) -> Result<Version, Refusal> {
        match version {
            1 => Ok(Version::Comments),
            2 => Ok(Version::Attributes),
            _ => Err(Refusal::VersionUnknown),
        }
    }
}

// 21 and then 13.
#[tactic(auto, unfolding(grid::specs::Answers::first_refusal, grid::specs::Answers::or_else))]
pub fn format_checked(version: u64, pitch: u64, x: i64, y: i64) -> Result<(Version, Plane), Refusal>
    ensures value { answered result ≡ first_refusal (format_checks version pitch) }
    ensures format { IfOk result (λ f. (number_of f.0 ≡ version) × (f.1.pitch ≡ pitch) × (f.1.x ≡ x) × (f.1.y ≡ y)) }
{
    let version = Version::try_from(version)?;
    let plane = Plane::checked(pitch, x, y)?;
    Ok((version, plane))
}
