//! The texts of the pages on the rules.
use ownership_rules::Refusal;

const WRITE_TO_OWNED: &str = "\
a write to memory that the controller owns

What it is for
  From the write that hands a TRB over until an event gives it back the
  controller may fetch it at any moment, a Link TRB too. So may it read an
  Input Context until its command completes, the DCBAA entry of a slot from
  Address Device to Disable Slot, and the ERST from the write of ERSTBA on.
  Device Contexts and the Event Ring are its own to write (xHCI 4.6, 4.9.2,
  4.9.4, 6.1, 6.5).

What a controller does to a driver that breaks it
  It takes a TRB with other words than were submitted, or half old and half
  new, and then reads or writes other memory. It follows a Link TRB that is
  just being changed, out of the ring.

What to write instead
  Write all else of a TRB before the word with its Cycle bit, and nothing
  behind it. A TRB is yours again once you have read an event of its TD or of
  a later one of its ring, or have moved the ring past it (Stop Endpoint, Set
  TR Dequeue Pointer). The same word stored once more does no harm. Versions
  1 and 2 refuse it too; versions from 3 on only in Device Contexts and the
  Event Ring, where the controller writes. In version 4 the Chain bit of a Link
  TRB beside a withdrawn TRB may be cleared, and nothing else with it.

A trace that breaks it
  Row 5 hands a No Op over; row 6 stores into it, and is refused.

    xtrace 1
    ctx 20
    ring 02 xfer 0000000000030000:0004
    sub 02 00000000 00000000 00000000 00002020
    w 000000000003000c 00002021
    w 000000000003000c 00002021
";

const NOT_AS_SUBMITTED: &str = "\
a TRB is handed over with other words than were submitted

What it is for
  What goes to the controller is what was meant: when the write with the Cycle
  bit hands a TRB over, its four words in memory are compared with its `sub`
  row (xHCI 4.9.2).

What a controller does to a driver that breaks it
  It works on the words that lie there: a length or a buffer of the TD that
  stood there a lap ago.

What to write instead
  Write words 0 to 2 first, then the write barrier, then word 3 with the Cycle
  bit. Where memory is right, the `sub` row is logged with other words than
  the driver writes, or a write has no row.

A trace that breaks it
  Row 5 writes the buffer, and nothing the length; row 6 hands the TRB over,
  and is refused.

    xtrace 1
    ctx 20
    ring 02 xfer 0000000000030000:0004
    sub 02 00001000 00000000 00000008 00000420
    w 0000000000030000 00001000
    w 000000000003000c 00000421
";

const NOT_DECLARED: &str = "\
a TRB is handed over that was never submitted

What it is for
  Each TRB that is handed over was meant: a `sub` row of its ring stands
  before the first write for it. The ring of a `sub` row is a Command or
  Transfer Ring of the trace's head (xHCI 4.9.2).

What a controller does to a driver that breaks it
  A Cycle bit that turns valid by mistake hands over whatever lies there: the
  controller takes it as a TD that nobody submitted.

What to write instead
  Log the `sub` row before the first write for the TD. Where you do, look for
  a write with the Cycle bit of the Producer Cycle State in a place that is
  still free: a ring that is cleared on its second lap, an old word that is
  stored again, one TRB too far.

A trace that breaks it
  No `sub` row stands before the Cycle bit; row 4 is refused.

    xtrace 1
    ctx 20
    ring 02 xfer 0000000000030000:0004
    w 000000000003000c 00002021
";

const NOT_WHOLE: &str = "\
the first TRB of a TD is handed over before the rest

What it is for
  A TD is the controller's from its first TRB on. So that one goes last: all
  other TRBs of the TD, and the Link TRBs between them, are handed over before
  (xHCI 4.9.2, 4.11).

What a controller does to a driver that breaks it
  It goes into the TD and stands inside it at a TRB that isn't there yet.

What to write instead
  Write the first TRB with the other Cycle bit, then the rest of the TD with
  theirs, the barrier, and then the control word of the first TRB with its
  own. (xHCI allows another order, in which the controller waits for the rest;
  that isn't judged here.)

A trace that breaks it
  Row 5 hands over the first of two TRBs before the second, and is refused.

    xtrace 1
    ctx 20
    ring 02 xfer 0000000000030000:0004
    sub 02 00000000 00000000 00000000 00000410 00000000 00000000 00000000 00000420
    w 000000000003000c 00000411
";

const LINK_FAULT: &str = "\
a Link TRB is handed over that leads out of the ring

What it is for
  A Link TRB is handed over as the ring needs it: type 6, the address of the
  next segment, and Toggle Cycle in the ring's last segment alone (xHCI
  4.9.2.1, 4.11.5.1, 6.4.4.1).

What a controller does to a driver that breaks it
  It leaves the ring. With a wrong Toggle Cycle its Consumer Cycle State and
  your Producer Cycle State part: TRBs of the last lap look valid, new ones
  don't.

What to write instead
  In the last TRB of segment i: words 0 and 1 the address of segment i + 1 (in
  the last one: of the first), word 3 type 6 with the Cycle bit of the TRB
  before it, and Toggle Cycle (bit 1) where segment i is the last.

A trace that breaks it
  The Link TRB of the first of two segments has Toggle Cycle; row 5 is
  refused.

    xtrace 1
    ctx 20
    ring 04 xfer 0000000000100000:1000 0000000000110000:1000
    w 000000000010fff0 00110000
    w 000000000010fffc 00001803
";

const RING_FULL: &str = "\
more TRBs than the ring has room for

What it is for
  One place of a ring, beside its Link TRBs, stays free: where all are full,
  the ring looks as if it were empty. A place is free again once an event that
  was read gives its TRB back (xHCI 4.9.2).

What a controller does to a driver that breaks it
  It may not have fetched what stands there: TRBs are written over before it
  has seen them.

What to write instead
  Before you enqueue, count what is enqueued and not yet given back by an
  event that you have read. Wait where it doesn't fit, or make the ring longer
  before its first use.

A trace that breaks it
  Row 8 submits a third TRB on a ring of three places, and is refused.

    xtrace 1
    ctx 20
    ring 02 xfer 0000000000030000:0004
    sub 02 00000000 00000000 00000000 00002020
    w 000000000003000c 00002021
    sub 02 00000000 00000000 00000000 00002020
    w 000000000003001c 00002021
    sub 02 00000000 00000000 00000000 00002020
";

const BAD_DESCRIPTOR: &str = "\
TRBs that make no TD of the ring

What it is for
  The TRBs of one `sub` row are one TD of a Transfer Ring, or one command of
  the Command Ring: Chain (bit 4) on all but the last, types that go together,
  fields as they must be (xHCI 3.2.8 to 3.2.11, 4.11.2, 6.4.1, 6.4.3).

What a controller does to a driver that breaks it
  It joins the TRBs with those behind them, stops with a TRB Error, or follows
  a Link TRB that is taken for data.

What to write instead
  One `sub` row for each TD, and each stage of a control transfer is one:
  Setup Stage (8 bytes, IDT), Data Stage and what is chained to it, Status
  Stage. In `xtrace 4` Event Data TRBs stand behind the TRBs whose end they
  tell (xHCI 4.11.5.2). Chain on every TRB but the TD's last; the Cycle bit is
  0 in the row; Link TRBs are left out.

A trace that breaks it
  Row 4 submits a TRB with Chain and nothing behind it, and is refused.

    xtrace 1
    ctx 20
    ring 02 xfer 0000000000030000:0004
    sub 02 00001000 00000000 00000200 00000410
";

const BAD_REGISTER: &str = "\
a register is written at the wrong time or with a wrong value

What it is for
  The registers that say where memory is are written before the start, with
  values that fit the trace's rings: CRCR, DCBAAP, CONFIG, ERSTSZ, ERSTBA; the
  start needs CRCR, ERSTSZ, ERSTBA and ERDP. In `xtrace 4` Run/Stop 0 has the
  controller halt, and an `rd usbsts` row with HCHalted 1 tells that it did.
  Only then it may run again or be reset, save its state (CSS) or restore what
  it saved (CRS), and these registers be written once more: CRCR with the first
  TRB of a Command Ring whose doorbell was never rung, the others with the value
  that they have (xHCI 4.2, 4.23.2, 5.4, 5.5.2).

What a controller does to a driver that breaks it
  It looks for its rings elsewhere, or with the wrong Cycle State, from its
  first step on. Reset or set up anew before it has halted, it goes on in rings
  and contexts that the driver takes for its own. If it lost its power, and its
  state isn't restored before Run/Stop 1, it knows no slot and no endpoint.

What to write instead
  Reset first; then the ERST in memory, ERSTSZ, ERDP, ERSTBA; CRCR with the
  address of the Command Ring's first TRB and RCS 1; DCBAAP; CONFIG; Run/Stop
  last. A register of 64 bits is one row, at its second half. `xtrace 3` and
  `4` let ERSTSZ and ERDP be written more often before the start: their last
  values count. In `xtrace 4` read USBSTS behind Run/Stop 0 until HCHalted is 1.
  Run/Stop 1 may follow where every command is completed, and CRCR names the
  Command Ring that is there. HCRST may follow where no command was handed over
  behind one that wasn't; then free the Command Ring, and set up all anew.
  Around a loss of power write CSS once every command is completed; behind it
  the registers, then CRS, and read USBSTS until RSS is 0 before Run/Stop 1.
  Where SRE is 1, write HCRST. No two of Run/Stop, HCRST, CSS and CRS are 1.

A trace that breaks it
  Row 4 writes CRCR with RCS 0, and is refused.

    xtrace 1
    ctx 20
    ring 00 cmd 0000000000010000:0004
    reg crcr 0000000000010000
";

const BAD_DOORBELL: &str = "\
a doorbell of an endpoint that may not be rung now

What it is for
  A doorbell says that there is work for an endpoint that can do it: the
  controller was started, the endpoint is Running or Stopped and not to be
  moved first, and no unfinished command changes it. In `xtrace 4` none rings
  from Run/Stop 0 to Run/Stop 1 (xHCI 4.7, 4.8.3, 5.4.1.1, 5.6).

What a controller does to a driver that breaks it
  It starts the endpoint where it stood before the command; or the doorbell is
  lost, and the TD waits for ever.

What to write instead
  Ring behind the completion of the command that sets up, resets or moves the
  endpoint. After a halt: Reset Endpoint, Set TR Dequeue Pointer, each with
  its completion, then the doorbell.

A trace that breaks it
  Row 4 rings before the start, and is refused.

    xtrace 1
    ctx 20
    ring 02 xfer 0000000000030000:0004
    db 01 01
";

const BAD_COMMAND: &str = "\
a command that its slot, endpoint or Input Context does not allow

What it is for
  The slot and the endpoint that a command names are enabled, its Input
  Context and the slot's DCBAA entry lie where nothing else does, and say what
  the command needs (xHCI 4.5.3, 4.6, 6.2.5).

What a controller does to a driver that breaks it
  It ends with a Context State Error at best; at worst it reads or writes a
  context in memory that is something else.

What to write instead
  Enable Slot; then Address Device, with the DCBAA entry of the slot and an
  Input Context that adds the Slot Context and the Default Control Endpoint;
  then Configure Endpoint: each behind the completion of the one before, with
  its memory written before the command is.

A trace that breaks it
  Row 5 disables a slot that was never enabled, and is refused.

    xtrace 1
    ctx 20
    ring 00 cmd 0000000000010000:0004
    sub 00 00000000 00000000 00000000 01002800
    w 000000000001000c 01002801
";

const BUSY: &str = "\
a second command for a slot whose first is unfinished

What it is for
  One unfinished command for each slot, or for each endpoint of it: what holds
  of the slot behind it is known once its completion is read. No TRB for a ring
  that an unfinished Address Device moves, nor for an open ring that an
  unfinished command gives to an endpoint: it would count before the new Dequeue
  Pointer and behind it.

What a controller does to a driver that breaks it
  What the second rests on may not be so yet: the TRB may be taken before the
  ring is moved, or behind it.

What to write instead
  Read the completion of the first command before you write the second. In
  `xtrace 3` and `4` Stop Endpoint, Reset Endpoint and Set TR Dequeue Pointer
  of different endpoints may be unfinished side by side, and in `xtrace 4`
  beside them a Configure Endpoint that neither drops nor adds these endpoints,
  or an Evaluate Context without their contexts. (xHCI lets a driver enqueue any
  commands for one slot one behind the other; that isn't judged here.)

A trace that breaks it
  Row 19 disables slot 1, and row 21 once more before its completion: refused.

    xtrace 1
    ctx 20
    ring 00 cmd 0000000000010000:0004
    ring 01 evt 0000000000020000:0010
    w 0000000000040000 00020000
    w 0000000000040008 00000010
    reg erstsz 0000000000000001
    reg erstba 0000000000040000
    reg erdp 0000000000020000
    reg crcr 0000000000010001
    reg dcbaap 0000000000050000
    reg config 0000000000000008
    reg usbcmd 0000000000000001
    sub 00 00000000 00000000 00000000 00002400
    w 000000000001000c 00002401
    db 00 00
    ev 00010000 00000000 01000000 01008401
    sub 00 00000000 00000000 00000000 01002800
    w 000000000001001c 01002801
    sub 00 00000000 00000000 00000000 01002800
    w 000000000001002c 01002801
";

const IMPOSSIBLE_EVENT: &str = "\
an event that no controller can have posted

What it is for
  What the driver reads as an event is one: with the Cycle bit of its Consumer
  Cycle State, of a TRB that was handed over, behind a doorbell, which it names
  by address or by the value of Event Data, or of the command that is next; with
  a code that fits the endpoint's type and state (xHCI 4.6, 4.8.3, 4.9.4, 4.10,
  4.11.5.2, 6.4.2).

What a controller does to a driver that breaks it
  It has posted no such event. Mostly the driver read one of the last lap, and
  takes memory for its own that isn't.

What to write instead
  Take an event only where its Cycle bit is the Consumer Cycle State, and flip
  that at the ring's end. Where you do, the trace lacks a row before the event
  (a doorbell, a write, another event) or has it too late; or a TRB was
  written with the Cycle bit of another lap, and so never handed over.

A trace that breaks it
  Row 14 reads an event with the Cycle bit 0, which none has in the first lap:
  refused.

    xtrace 1
    ctx 20
    ring 00 cmd 0000000000010000:0004
    ring 01 evt 0000000000020000:0010
    w 0000000000040000 00020000
    w 0000000000040008 00000010
    reg erstsz 0000000000000001
    reg erstba 0000000000040000
    reg erdp 0000000000020000
    reg crcr 0000000000010001
    reg dcbaap 0000000000050000
    reg config 0000000000000008
    reg usbcmd 0000000000000001
    ev 01000000 00000000 01000000 00008800
";

const BAD_ERDP: &str = "\
ERDP names an event that has not been read

What it is for
  ERDP tells the controller how far events were read: the place of the next
  one, or of one on the way there, never back; before the start the ring's
  first place (xHCI 4.9.4, 5.5.2.3.3).

What a controller does to a driver that breaks it
  It posts over events that the driver has not read.

What to write instead
  Write ERDP behind the reads, with the address of the first event that you
  haven't read. `xtrace 3` and `4` pass over an ERDP before the start that is
  no place of the ring, if the right one follows.

A trace that breaks it
  Row 4 moves ERDP one event on before anything was read, and is refused.

    xtrace 1
    ctx 20
    ring 01 evt 0000000000020000:0010
    reg erdp 0000000000020010
";

const NOT_IN_PROFILE: &str = "\
what xHCI allows and this checker leaves out

What it is for
  Left out are streams, interrupters other than 0, some commands and completion
  codes, and Link TRBs with IOC; README has the whole list. Only `xtrace 4` has
  Isoch and Event Data TRBs, and what events say of them. `xtrace 3` lets an
  isochronous endpoint be added; `xtrace 1` and `2` don't.

What a controller does to a driver that breaks it
  Nothing is said of what a controller does. This refusal is no bug.

What to write instead
  Nothing. Record a run of the driver without it; of isochronous endpoints and
  of Event Data begin the trace with `xtrace 4`.

A trace that breaks it
  Row 4 submits a TRB for Interrupter 1, and is refused.

    xtrace 1
    ctx 20
    ring 02 xfer 0000000000030000:0004
    sub 02 00001000 00000000 00400000 00000420
";

const AFTER_STOP: &str = "\
a row behind the stop of the controller

What it is for
  In `xtrace 1` to `3` a trace is one run of the controller: it ends with the
  row that stops it, Run/Stop 0 or a reset behind the start (xHCI 5.4.1). Whose
  the rings and contexts are behind that isn't told. `xtrace 4` goes on.

What a controller does to a driver that breaks it
  Nothing is said of that: mostly this refusal is no bug.

What to write instead
  End the trace with the row that stops the controller, and begin a new one
  before the next set-up. Or begin it with `xtrace 4`, and log each read of
  USBSTS behind the stop as an `rd usbsts` row.

A trace that breaks it
  Row 14 stops the controller; row 15 rings a doorbell, and is refused.

    xtrace 1
    ctx 20
    ring 00 cmd 0000000000010000:0004
    ring 01 evt 0000000000020000:0010
    w 0000000000040000 00020000
    w 0000000000040008 00000010
    reg erstsz 0000000000000001
    reg erstba 0000000000040000
    reg erdp 0000000000020000
    reg crcr 0000000000010001
    reg dcbaap 0000000000050000
    reg config 0000000000000008
    reg usbcmd 0000000000000001
    reg usbcmd 0000000000000000
    db 00 00
";

const BAD_MOVE: &str = "\
a ring is bound or moved to where it may not stand

What it is for
  Where an endpoint is set up or moved, the controller goes on at the border
  of two TDs, behind all that it may have begun, with the Cycle bit that the
  TRB there has or gets (xHCI 4.6.5, 4.6.6, 4.6.10).

What a controller does to a driver that breaks it
  It takes TDs twice, passes over some, or begins inside of one; with a wrong
  Dequeue Cycle State it takes TRBs of the last lap.

What to write instead
  A new endpoint: the first TRB of a ring that no endpoint had, with DCS 1. In
  `xtrace 3` and `4` also any ring that no other endpoint keeps, at the TRB
  past which the controller can't have gone: it halted or was stopped there,
  or no later TRB was handed over. Set TR Dequeue Pointer: of an endpoint that
  rests, to the first TRB of a TD that can't have been begun, or behind the
  last TD. DCS is the Cycle bit of that place in this lap.

A trace that breaks it
  Row 25 hands over an Address Device whose ring has DCS 0, and is refused.

    xtrace 1
    ctx 20
    ring 00 cmd 0000000000010000:0004
    ring 01 evt 0000000000020000:0010
    ring 02 xfer 0000000000030000:0004
    w 0000000000040000 00020000
    w 0000000000040008 00000010
    reg erstsz 0000000000000001
    reg erstba 0000000000040000
    reg erdp 0000000000020000
    reg crcr 0000000000010001
    reg dcbaap 0000000000050000
    reg config 0000000000000008
    reg usbcmd 0000000000000001
    sub 00 00000000 00000000 00000000 00002400
    w 000000000001000c 00002401
    db 00 00
    ev 00010000 00000000 01000000 01008401
    w 0000000000050008 00070000
    w 0000000000060004 00000003
    w 0000000000060044 00000020
    w 0000000000060048 00030000
    sub 00 00060000 00000000 00000000 01002c00
    w 0000000000010010 00060000
    w 000000000001001c 01002c01
";

const BAD_WITHDRAW: &str = "\
a TD is withdrawn that may not be

What it is for
  A driver cancels a TD of a stopped ring by turning its TRBs into No Ops; a
  `nop` row (from `xtrace 2` on) says so before the first of these writes.
  An endpoint that has the ring is Stopped then, no unfinished command touches
  it, and at the position that the row names a TD begins of which nothing was
  withdrawn before (xHCI 4.6.9, 6.4.1.4.1). In version 2 the controller can't
  have come to that TD, in version 3 it isn't past its first TRB, and in
  version 4 it isn't past its last one: then the rest of the TD is withdrawn.
  No TRB of it is Event Data that the controller may have passed, since the
  event that tells its value may still come (xHCI 4.11.5.2).

What a controller does to a driver that breaks it
  While the endpoint runs, it takes a TRB that is half the TD and half a No
  Op. With a command unfinished that moves or resets the endpoint it goes on
  elsewhere than the driver believes: it takes TDs twice, or passes over some.

What to write instead
  Stop Endpoint, and read its completion; the `nop` row; then of each TRB that
  was handed over words 0 to 2 with 0 and word 3 with 00002000 and the Cycle
  bit that it has; then the doorbell. What the controller may have passed
  keeps its Cycle bit all the time: a write that turns it is refused as
  WriteToOwned. Of a TD inside which the controller stopped, move the ring past
  it by Set TR Dequeue Pointer before the doorbell (xHCI 4.6.9, 4.6.10). No rule
  asks for that: no row tells what the Endpoint Context said of the place.

A trace that breaks it
  Row 29 withdraws the TD of row 28 while the endpoint is Running, and is
  refused.

    xtrace 2
    ctx 20
    ring 00 cmd 0000000000010000:0010
    ring 01 evt 0000000000020000:0010
    ring 02 xfer 0000000000030000:0004
    w 0000000000040000 00020000
    w 0000000000040008 00000010
    reg erstsz 0000000000000001
    reg erstba 0000000000040000
    reg erdp 0000000000020000
    reg crcr 0000000000010001
    reg dcbaap 0000000000050000
    reg config 0000000000000008
    reg usbcmd 0000000000000001
    sub 00 00000000 00000000 00000000 00002400
    w 000000000001000c 00002401
    db 00 00
    ev 00010000 00000000 01000000 01008401
    w 0000000000050008 00070000
    w 0000000000060004 00000003
    w 0000000000060044 00000020
    w 0000000000060048 00030001
    sub 00 00060000 00000000 00000000 01002c00
    w 0000000000010010 00060000
    w 000000000001001c 01002c01
    db 00 00
    ev 00010010 00000000 01000000 01008401
    sub 02 00000000 00000000 00000000 00000420
    nop 02 0000000000000000
";

const NOT_RESTORED: &str = "\
a ring goes on before its withdrawn TDs are No Ops

What it is for
  Behind a `nop` row (from `xtrace 2` on) the TRBs of the withdrawn TD are
  the driver's to write. They are the controller's again with the next doorbell
  of the ring's endpoint, or with the Set TR Dequeue Pointer that is handed
  over for it. Each that was handed over before is a No Op by then: words 0 to
  2 are 0, word 3 is 00002000 with the Cycle bit of its place in this lap (xHCI
  4.6.9, 4.6.10, 6.4.1.4.1).

What a controller does to a driver that breaks it
  It takes what is left of the withdrawn TD, and reads or writes a buffer that
  was given back. Where the Cycle bit was turned, it waits there for ever, or
  takes TRBs of two laps.

What to write instead
  All four words of each of these TRBs, then the write barrier, then the
  doorbell or the command. Without a `nop` row a TD may also stay as it is, and
  the ring be moved past it by Set TR Dequeue Pointer.

A trace that breaks it
  Row 34 withdraws the TD that row 29 handed over; row 35 rings before it is a
  No Op, and is refused.

    xtrace 2
    ctx 20
    ring 00 cmd 0000000000010000:0010
    ring 01 evt 0000000000020000:0010
    ring 02 xfer 0000000000030000:0004
    w 0000000000040000 00020000
    w 0000000000040008 00000010
    reg erstsz 0000000000000001
    reg erstba 0000000000040000
    reg erdp 0000000000020000
    reg crcr 0000000000010001
    reg dcbaap 0000000000050000
    reg config 0000000000000008
    reg usbcmd 0000000000000001
    sub 00 00000000 00000000 00000000 00002400
    w 000000000001000c 00002401
    db 00 00
    ev 00010000 00000000 01000000 01008401
    w 0000000000050008 00070000
    w 0000000000060004 00000003
    w 0000000000060044 00000020
    w 0000000000060048 00030001
    sub 00 00060000 00000000 00000000 01002c00
    w 0000000000010010 00060000
    w 000000000001001c 01002c01
    db 00 00
    ev 00010010 00000000 01000000 01008401
    sub 02 00000000 00000000 00000000 00000420
    w 000000000003000c 00000421
    sub 00 00000000 00000000 00000000 01013c00
    w 000000000001002c 01013c01
    db 00 00
    ev 00010020 00000000 01000000 01008401
    nop 02 0000000000000000
    db 01 01
";

const BAD_FREE: &str = "\
a ring is freed that is not the driver's to free

What it is for
  A `free` row (from `xtrace 2` on) says that the memory of a Transfer Ring
  is the driver's again. No endpoint has the ring: each that had it is
  Disabled by a command whose completion was read, or by a reset. And no
  unfinished command gives it to one. The Command Ring and the Event Ring go
  in `xtrace 4` alone: the one before the start, or where HCHalted was read and
  every command is completed; the other where ERSTSZ is unwritten since the
  reset (xHCI 4.2, 4.6.4, 4.6.6, 4.9).

What a controller does to a driver that breaks it
  It goes on fetching where no ring is any more, and takes as TDs whatever is
  put there next.

What to write instead
  Disable Slot, or Configure Endpoint that drops the endpoint; read its
  completion; then the `free` row, and only then give the memory back. Of all
  rings at once: Run/Stop 0, `rd usbsts` with HCHalted 1, HCRST, `free` rows.

A trace that breaks it
  Row 28 frees the ring of an endpoint that is Running, and is refused.

    xtrace 2
    ctx 20
    ring 00 cmd 0000000000010000:0010
    ring 01 evt 0000000000020000:0010
    ring 02 xfer 0000000000030000:0004
    w 0000000000040000 00020000
    w 0000000000040008 00000010
    reg erstsz 0000000000000001
    reg erstba 0000000000040000
    reg erdp 0000000000020000
    reg crcr 0000000000010001
    reg dcbaap 0000000000050000
    reg config 0000000000000008
    reg usbcmd 0000000000000001
    sub 00 00000000 00000000 00000000 00002400
    w 000000000001000c 00002401
    db 00 00
    ev 00010000 00000000 01000000 01008401
    w 0000000000050008 00070000
    w 0000000000060004 00000003
    w 0000000000060044 00000020
    w 0000000000060048 00030001
    sub 00 00060000 00000000 00000000 01002c00
    w 0000000000010010 00060000
    w 000000000001001c 01002c01
    db 00 00
    ev 00010010 00000000 01000000 01008401
    free 02
";

const BAD_RING: &str = "\
a ring comes in memory that is not free for it

What it is for
  A `ring` line behind rows (from `xtrace 2` on) is a Transfer Ring that
  comes: from now on its memory is one. In `xtrace 4` it may also be the
  Command Ring (before the start, or where HCHalted was read) or the Event Ring
  (before the start), where none is there. Its ID is new. Its segments touch no
  ring that is there, and nothing that the controller has: no Input Context of
  an unfinished command, no DCBAA entry or Device Context, no ERST. Nor is a
  Device Context's word among them that wasn't written since, for there the
  controller wrote last. And no control word shows 1, the Cycle bit of the
  first lap (xHCI 4.9, 4.9.2, 6.1).

What a controller does to a driver that breaks it
  A TRB that shows 1 counts as handed over: what lies there is taken as a TD.
  Of memory that is two things at once, it writes the one and reads the other.

What to write instead
  Free the ring that lay there, read the completion of the command that gives
  a context back, then set every word of the segments to 0. Then the `ring`
  line, the Link TRBs and the TDs.

A trace that breaks it
  Row 7 makes a ring where the TRB of row 5 still shows its Cycle bit: refused.

    xtrace 2
    ctx 20
    ring 02 xfer 0000000000030000:0004
    sub 02 00000000 00000000 00000000 00002020
    w 000000000003000c 00002021
    free 02
    ring 03 xfer 0000000000030000:0004
";

const IMPOSSIBLE_READ: &str = "\
USBSTS was read with a value that it can't have had

What it is for
  HCHalted (bit 0) of USBSTS is 1 before the start, and 0 from there on. Behind
  Run/Stop 0 it becomes 1, and stays so until Run/Stop is 1 again. An `rd` row
  (in `xtrace 4`) of another register says nothing (xHCI 4.2, 5.4.1.1, 5.4.2).

What a controller does to a driver that breaks it
  It shows no such value: mostly the row stands at the wrong place. But after an
  error of its own (HSE, HCE) a controller halts by itself; that isn't judged
  here.

What to write instead
  Log each read of USBSTS where it was made, with the value that came back. Of a
  controller that halts by itself end the trace before that row.

A trace that breaks it
  Row 3 reads HCHalted as 0 before the start, and is refused.

    xtrace 4
    ctx 20
    rd usbsts 0000000000000000
";

/// The page on a rule, which its number and name stand before: a head line, what it is for, what a controller does to a driver that
/// breaks it, what to write instead, and a trace whose last row breaks it, each line behind four spaces.
pub fn page_on_rule(rule: Refusal) -> &'static str {
    match rule {
        Refusal::WriteToOwned => WRITE_TO_OWNED,
        Refusal::NotAsSubmitted => NOT_AS_SUBMITTED,
        Refusal::NotDeclared => NOT_DECLARED,
        Refusal::NotWhole => NOT_WHOLE,
        Refusal::LinkFault => LINK_FAULT,
        Refusal::RingFull => RING_FULL,
        Refusal::BadDescriptor => BAD_DESCRIPTOR,
        Refusal::BadRegister => BAD_REGISTER,
        Refusal::BadDoorbell => BAD_DOORBELL,
        Refusal::BadCommand => BAD_COMMAND,
        Refusal::Busy => BUSY,
        Refusal::ImpossibleEvent => IMPOSSIBLE_EVENT,
        Refusal::BadErdp => BAD_ERDP,
        Refusal::NotInProfile => NOT_IN_PROFILE,
        Refusal::AfterStop => AFTER_STOP,
        Refusal::BadMove => BAD_MOVE,
        Refusal::BadWithdraw => BAD_WITHDRAW,
        Refusal::NotRestored => NOT_RESTORED,
        Refusal::BadFree => BAD_FREE,
        Refusal::BadRing => BAD_RING,
        Refusal::ImpossibleRead => IMPOSSIBLE_READ,
    }
}
