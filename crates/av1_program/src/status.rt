// How the program ends.
ghost use Rattle.std.specs.Prelude.{◌≡◌, ◌⊎◌, IfOk, IsOk, string_bytes};
ghost use Rattle.std.specs.Cow.{cow_str_bytes};
ghost use Rattle.av1_program.specs.Status.{number_of, line_of, HasFixedLine, place_text, refused_line, bad_script_line, too_long_line, bad_shape_line};

use av1_bits::ReadError;
use av1_geometry::{OutOfMemory, Rule};
use av1_input::ShapeError;
use av1_unit::{Place, UnitError};
use std::alloc::Global;
use std::borrow::CowStr;

const OUT_OF_MEMORY: &str = "out of memory\n";

/// How the program ends. What a status stands for is said at `run`.
#[derive(Debug, Drop)]
pub enum Status {
    /// Everything was sent.
    Sent,

    /// The words on the command line are not those of the program.
    Usage,

    /// A read failed.
    SourceFault,

    /// The input has more than 2^26 bytes.
    TooLarge,

    /// The input is no JSON text.
    BadText,

    /// The input is JSON, and what stands at this path, a JSON pointer, is no part of a unit.
    BadShape(String),

    /// The unit breaks a rule at this place.
    Refused { place: Place, rule: Rule },

    /// At this item of the tile's script a trial ends that has not begun, or a place lies in another superblock than the
    /// innermost trial's. At its end, the place after the last item, a trial has not ended.
    BadScript { tile: u32, item: usize },

    /// A step of the unit would begin here after more than 2^28 bits, or the payload of this OBU has 2^32 bytes or more, and nothing
    /// before it is wrong.
    TooLong { place: Place },

    /// A write failed.
    SinkFault,

    /// There was not enough memory.
    OutOfMemory,
}

impl Status {
    /// The number that the process ends with.
    pub fn number(&self) -> u8
        ensures { result ≡ number_of self.now }
    {
        match self {
            Status::Sent => 0,
            Status::Usage => 1,
            Status::SourceFault => 2,
            Status::TooLarge => 3,
            Status::BadText => 4,
            Status::BadShape(_) => 5,
            Status::Refused { .. } => 6,
            Status::BadScript { .. } => 7,
            Status::TooLong { .. } => 8,
            Status::SinkFault => 9,
            Status::OutOfMemory => 10,
        }
    }

    /// The line that says it, ended by a newline; of `Sent` nothing. Only a line that has a path or a
    /// place takes memory.
    pub fn line(&self, alloc: Global) -> Result<CowStr<'static>, OutOfMemory>
        ensures text { IfOk result (λ line. cow_str_bytes line ≡ line_of self.now) }
        ensures fixed { HasFixedLine self.now → IsOk result }
    {
        let line = match self {
            Status::Sent => "",
            Status::Usage => "usage: av1_write write | raw | make N\n",
            Status::SourceFault => "source fault\n",
            Status::TooLarge => "input too large\n",
            Status::BadText => "bad text\n",
            Status::BadShape(path) => return Ok(CowStr::Owned(bad_shape_line(alloc, path)?)),
            Status::Refused { place, rule } => {
                return Ok(CowStr::Owned(refused_line(alloc, *place, *rule)?));
            }
            Status::BadScript { tile, item } => {
                return Ok(CowStr::Owned(bad_script_line(alloc, *tile, *item)?));
            }
            Status::TooLong { place } => {
                return Ok(CowStr::Owned(too_long_line(alloc, *place)?));
            }
            Status::SinkFault => "sink fault\n",
            Status::OutOfMemory => OUT_OF_MEMORY,
        };
        Ok(CowStr::Borrowed(line))
    }

    /// The status and its line. Where there is no memory for the line, the status is `OutOfMemory`.
    pub fn with_line(self, alloc: Global) -> (Status, CowStr<'static>)
        ensures line { cow_str_bytes result.1 ≡ line_of result.0 }
        ensures status { (result.0 ≡ self) ⊎ ((result.0 ≡ Status.OutOfMemory) × ¬ HasFixedLine self) }
    {
        match self.line(alloc) {
            Ok(line) => (self, line),
            Err(OutOfMemory) => (Status::OutOfMemory, CowStr::Borrowed(OUT_OF_MEMORY)),
        }
    }
}

#[tactic(auto, unfolding(crate::specs::Status::bad_shape_line))]
fn bad_shape_line(alloc: Global, path: &str) -> Result<String, OutOfMemory>
    ensures { IfOk result (λ line. string_bytes line ≡ bad_shape_line path.now) }
{
    Ok(format!(in alloc; "bad shape at {path}\n")?)
}

#[tactic(auto, unfolding(crate::specs::Status::place_text))]
fn place_text(alloc: Global, place: Place) -> Result<String, OutOfMemory>
    ensures { IfOk result (λ text. string_bytes text ≡ place_text place) }
{
    match place {
        Place::Tables => Ok(String::from_str(alloc, "tables")?),
        Place::Scans => Ok(String::from_str(alloc, "scans")?),
        Place::Sequence => Ok(String::from_str(alloc, "sequence")?),
        Place::Frame => Ok(String::from_str(alloc, "frame")?),
        Place::Metadata { index } => Ok(format!(in alloc; "metadata {index}")?),
        Place::Scripts => Ok(String::from_str(alloc, "scripts")?),
        Place::Item { tile, item } => Ok(format!(in alloc; "tile {tile} item {item}")?),
        Place::Obu { index } => Ok(format!(in alloc; "obu {index}")?),
    }
}

#[tactic(auto, unfolding(crate::specs::Status::refused_line))]
fn refused_line(alloc: Global, place: Place, rule: Rule) -> Result<String, OutOfMemory>
    ensures { IfOk result (λ line. string_bytes line ≡ refused_line place rule) }
{
    let place = place_text(alloc, place)?;
    let number = rule.0;
    Ok(format!(in alloc; "refused {place} r{number}\n")?)
}

#[tactic(auto, unfolding(crate::specs::Status::bad_script_line))]
fn bad_script_line(alloc: Global, tile: u32, item: usize) -> Result<String, OutOfMemory>
    ensures { IfOk result (λ line. string_bytes line ≡ bad_script_line tile item) }
{
    let place = place_text(alloc, Place::Item { tile, item })?;
    Ok(format!(in alloc; "bad script {place}\n")?)
}

#[tactic(auto, unfolding(crate::specs::Status::too_long_line))]
fn too_long_line(alloc: Global, place: Place) -> Result<String, OutOfMemory>
    ensures { IfOk result (λ line. string_bytes line ≡ too_long_line place) }
{
    let place = place_text(alloc, place)?;
    Ok(format!(in alloc; "too long {place}\n")?)
}

impl From<ReadError> for Status {
    ghost use Rattle.std.specs.Prelude.{◌≡◌};
    ghost use Rattle.av1_program.specs.Status.{of_read_error};

    ghost from_gives = { λ e s. s ≡ of_read_error e };

    fn from(error: ReadError) -> Self {
        match error {
            ReadError::Fault => Status::SourceFault,
            ReadError::TooLarge => Status::TooLarge,
            ReadError::OutOfMemory => Status::OutOfMemory,
        }
    }
}

impl From<ShapeError> for Status {
    ghost use Rattle.std.specs.Prelude.{◌≡◌};
    ghost use Rattle.av1_program.specs.Status.{of_shape_error};

    ghost from_gives = { λ e s. s ≡ of_shape_error e };

    fn from(error: ShapeError) -> Self {
        match error {
            ShapeError::BadText => Status::BadText,
            ShapeError::BadShape(path) => Status::BadShape(path),
            ShapeError::OutOfMemory => Status::OutOfMemory,
        }
    }
}

impl From<UnitError> for Status {
    ghost use Rattle.std.specs.Prelude.{◌≡◌};
    ghost use Rattle.av1_program.specs.Status.{of_unit_error};

    ghost from_gives = { λ e s. s ≡ of_unit_error e };

    fn from(error: UnitError) -> Self {
        match error {
            UnitError::Refused { place, rule } => Status::Refused { place, rule },
            UnitError::BadScript { tile, item } => Status::BadScript { tile, item },
            UnitError::TooLong { place } => Status::TooLong { place },
            UnitError::SinkFault => Status::SinkFault,
            UnitError::OutOfMemory => Status::OutOfMemory,
        }
    }
}

impl From<OutOfMemory> for Status {
    ghost use Rattle.std.specs.Prelude.{◌≡◌};
    ghost use Rattle.av1_program.specs.declared.status.Status.TheVariants.{OutOfMemory as MemoryStatus};

    ghost from_gives = { λ _ s. s ≡ MemoryStatus };

    fn from(_: OutOfMemory) -> Self {
        Status::OutOfMemory
    }
}
