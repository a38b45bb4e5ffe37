//! What goes out has the shape of a segment.

ghost use Rattle.theorem_frames.specs.Shapes.{SettlingBuilds, ShapeOfEachLog, SurvivingBuilds};

/// Where the fields of all that a guest sent are in their ranges, an event that settles releases
/// segments alone, each built of fields in their ranges and at most 536 bytes.
pub fn settling_builds()
    ensures { SettlingBuilds }
{}

/// So does a survivor at the report.
pub fn surviving_builds()
    ensures { SurvivingBuilds }
{}

/// From each start, on every schedule, each released frame is such a segment, or the ARP reply that
/// its client event owes to that very frame.
pub fn shape_of_each_log()
    ensures { ShapeOfEachLog }
{}
