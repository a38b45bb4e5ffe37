//! What both nodes agree on is said at once.

ghost use Rattle.theorem_prompt.specs.Said.{AcksOfEachLog, PromptOfEachLog};

/// From each start, on every schedule with at most one stop: at the end of each event without a
/// checkpoint under way, the last acknowledgement that was released on a tuple, with released
/// symbols and one client on both lines, is the agreed one.
pub fn acks_of_each_log()
    ensures { AcksOfEachLog }
{}

/// So Prompt holds: each event releases exactly the frames that its settling gives, among them all
/// symbols that both nodes agree on, and every agreed acknowledgement is said.
pub fn prompt_of_each_log()
    ensures { PromptOfEachLog }
{}
