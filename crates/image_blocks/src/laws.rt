// Laws of logs in images. The functions do nothing: their contracts are the laws.
ghost use Rattle.image_facts.specs.Examples.{WorkedBlocks};
ghost use Rattle.image_blocks.specs.Logs.{AscendingLaw, InRangeLaw, LogBackLaw, LogLaw, RecordsRestLaw};
ghost use Rattle.image_facts.specs.Logs.{FittingLaw};

/// The records of an image rest on a few of its blocks: an image of as many blocks that agrees there has the same.
pub fn records_rest_law()
    ensures { RecordsRestLaw }
{}

/// An image with a good front and a log of fitting records has these records.
pub fn log_law()
    ensures { LogLaw }
{}

/// An image of whole blocks that has records has them as the log of its active area, behind a good front.
pub fn log_back_law()
    ensures { LogBackLaw }
{}

/// A record in range fits behind others: its body is accepted there, and is read back as that record.
pub fn fitting_law()
    ensures { FittingLaw }
{}

/// Each record of an image is in range behind those before it: its entity, length, version, stamp and blocks. So the versions of
/// an entity's records strictly ascend.
pub fn in_range_law()
    ensures range { InRangeLaw }
    ensures ascending { AscendingLaw }
{}

/// Blocks that were worked out by hand.
pub fn examples_hold()
    ensures { WorkedBlocks }
{}
