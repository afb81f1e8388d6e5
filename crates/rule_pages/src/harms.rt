//! The texts of the pages on the harms.
use world_state::Harm;

const TAKEN_OUT_OF_ORDER: &str = "\
the controller takes a TRB that wasn't submitted, or not the next one

What it is
  The controller's step fetches a TRB whose Cycle bit counts as handed over.
  But no `sub` row submitted one for that place in this lap, or the controller
  has left out one before it, or takes it a second time. A TRB that was
  withdrawn counts as a No Op (xHCI 4.9.2).

What you see of it
  A command or a TD that nobody gave; a transfer twice, or never; events of
  TRBs that were done a lap ago.

What keeps it away
  Mostly 12 NotDeclared, 14 LinkFault (Toggle Cycle), 15 RingFull, 18
  BadDoorbell, 20 Busy, 25 BadMove, 33 NotRestored and 35 BadRing. Of a trace
  that breaks no rule no run does this harm: that is proved.
";

const TAKEN_OTHER_WORDS: &str = "\
the controller takes other words than the submitted ones

What it is
  The TRB at the next place was submitted, and is handed over, but memory shows
  other words than its `sub` row: a word was written after the Cycle bit, or
  not at all (xHCI 4.9.2).

What you see of it
  A transfer to a buffer that is another's, or of another length: memory is
  damaged far from the driver, and on some controllers alone.

What keeps it away
  10 WriteToOwned, 11 NotAsSubmitted, 32 BadWithdraw and 33 NotRestored. Of a
  trace that breaks no rule no run does this harm: that is proved.
";

const WAITS_INSIDE_DESCRIPTOR: &str = "\
the controller waits within a TD

What it is
  The controller has taken a TRB of a TD, and the next one isn't handed over
  yet: it stands inside the TD, with the endpoint at work (xHCI 4.9.2, 4.11).

What you see of it
  A transfer that stalls or runs short under load, as the controller fetches
  faster than the driver writes.

What keeps it away
  13 NotWhole: the first TRB of a TD is handed over last. Of a trace that
  breaks no rule no run does this harm: that is proved.
";

const LOOKS_OUTSIDE: &str = "\
the controller looks outside the ring

What it is
  The place from which the controller fetches lies in no segment of the ring,
  or the ring isn't there any more: a Link TRB leads elsewhere, or the pointer
  in a context or in CRCR does (xHCI 4.9.2.1, 6.4.4.1).

What you see of it
  Whatever lies there is taken as TRBs: transfers and commands out of other
  data, or an error of the host system.

What keeps it away
  10 WriteToOwned (a Link TRB), 14 LinkFault, 16 BadDescriptor (a Link TRB in a
  `sub` row), 17 BadRegister, 25 BadMove, 34 BadFree and 35 BadRing. Of a trace
  that breaks no rule no run does this harm: that is proved.
";

const POSTS_OVER_UNREAD: &str = "\
the controller posts over an unread event

What it is
  The Event Ring is full of events that the driver hasn't read, but ERDP says
  that there is room: the next event is written over one of them. Or the Event
  Ring isn't there any more: the next event is written into memory that is
  something else by now (xHCI 4.9.4).

What you see of it
  A completion that never comes, and a driver that waits for it until it gives
  the transfer up.

What keeps it away
  22 BadErdp, 17 BadRegister of the Event Ring's registers, and 34 BadFree. Of a
  trace that breaks no rule no run does this harm: that is proved.
";

const INPUT_CONTEXT_CHANGED: &str = "\
an Input Context changed while its command is under way

What it is
  A command that names an Input Context was taken, and the context in memory is
  another one now than it was when the command was handed over: the controller
  may read either, or half of each (xHCI 4.6, 6.2.5).

What you see of it
  An endpoint with the ring, the type or the Max Packet Size of another, or a
  command that ends with a Parameter Error now and then.

What keeps it away
  10 WriteToOwned: an Input Context is written before its command, and again
  only behind the completion; and 19 BadCommand, where a Device Context lies
  over it. Of a trace that breaks no rule no run does this harm: that is proved.
";

/// The page on a harm, which `harm` and its number stand before: a head line, what it is, what the author of a driver sees of it, and the
/// rules that keep it away.
pub fn page_on_harm(harm: Harm) -> &'static str {
    match harm {
        Harm::TakenOutOfOrder => TAKEN_OUT_OF_ORDER,
        Harm::TakenOtherWords => TAKEN_OTHER_WORDS,
        Harm::WaitsInsideDescriptor => WAITS_INSIDE_DESCRIPTOR,
        Harm::LooksOutside => LOOKS_OUTSIDE,
        Harm::PostsOverUnread => POSTS_OVER_UNREAD,
        Harm::InputContextChanged => INPUT_CONTEXT_CHANGED,
    }
}
