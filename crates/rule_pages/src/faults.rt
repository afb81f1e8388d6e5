//! The texts of the pages on what is wrong with a file, and where memory or a device fails.
use certificate::CertFault;
use trace_reader::LineFault;

const HEADER: &str = "\
the first line, or the second of a trace, is not as it must be

What is wrong
  A trace begins with `xtrace 1`, `2`, `3` or `4`, and its second line is
  `ctx 20` or `ctx 40`; a plan begins with `xplan 1`, a schedule with
  `xsched 1`. Nothing stands before that: no empty line, no comment, no byte
  order mark. A text that ends before its second line is told so too. Of a
  replay `harm 1` is another matter: xhcitrace explain harm-1.

What to write instead
  `xtrace 3`, of a driver with isochronous endpoints or of a controller that
  runs more than once `xtrace 4`; and as CSZ of HCCPARAMS1 says (xHCI 5.3.6)
  `ctx 20`, contexts of 32 bytes, or `ctx 40`, of 64: in hex digits. Save the
  file as UTF-8 without a byte order mark, with line feeds alone.

A trace that has it
  Line 2 names the size of a context in decimal.

    xtrace 3
    ctx 32
";

const ROW: &str = "\
a line is no row

What is wrong
  Its first word begins no row; it has too few fields or too many, or an empty
  one; the kind of its ring or the name of its register is none; or it has no
  line feed at its end, as where a recording was cut off. In `xtrace 1` no
  `free` and `nop` rows are, and `ring` lines stand before all rows. Only
  `xtrace 4` has `rd` rows, and `cmd` and `evt` rings behind rows. Of a replay
  `harm 2` is another matter: xhcitrace explain harm-2.

What to write instead
  The forms that FORMAT.md lists: words in lower case, one space between two
  fields and none at the ends, no comments, no empty lines, a line feed at the
  end of each line. With --explain the form of the row is told.

A trace that has it
  Line 4 has no word to write.

    xtrace 3
    ctx 20
    ring 02 xfer 0000000000030000:0004
    w 0000000000030000
";

const NUMBER: &str = "\
a number is none, or has another width

What is wrong
  Numbers are hex digits without `0x`, each kind of one width: 16 digits for an
  address, a register's value or a position, 8 for a word, 4 for a count of
  TRBs, 2 for a ring's ID, a slot or a DCI. An address of a word is a multiple
  of 4; a register of 32 bits has a value below 0000000100000000. Of a replay
  `harm 3` is another matter: xhcitrace explain harm-3.

What to write instead
  Zeros before the digits, as printf's %016x, %08x, %04x and %02x write them. A
  row for each word: a write of 64 bits is two rows.

A trace that has it
  Line 4 has a word of two digits.

    xtrace 3
    ctx 20
    ring 02 xfer 0000000000030000:0004
    w 0000000000030000 01
";

const LIMIT: &str = "\
a line too many, too long, or with too many TRBs

What is wrong
  A line has at most 16,384 bytes, a `sub` row 256 TRBs; with `xtrace 4` in
  line 1 a line has 163,840, a `sub` row 4,096. A trace of `xtrace 3` or `4` has
  at most 4,294,967,294 lines, and 1,048,576 for `check --show`, `schedule` and
  `replay`; so have traces of `xtrace 1` and `2`, and plans; a schedule has
  4,194,304. Of a replay `harm 4` is another matter: xhcitrace explain harm-4.

What to write instead
  A `sub` row for each TD, and `xtrace 4` in line 1 where one has more than 256
  TRBs. Of a long trace `xtrace 3` in line 1: then `check`, `verify`, `show` and
  `tools/picture` take it whole. For the other commands the first rows, up to
  those that matter: head -n 1048576.

A trace that has it
  None so short that a page could hold it.
";

const SHAPE: &str = "\
a ring's segments are not as they must be

What is wrong
  A segment lies on a boundary of 16 bytes (a `cmd` or `evt` ring's: 64) and
  crosses none of 64 KB. It has 2 to 4,096 TRBs, an `evt` ring's 16 at least; a
  ring has at most 64 segments, and two places beside its Link TRBs. No two
  segments overlap, no ID stands twice, and there is one Command Ring and one
  Event Ring at most (xHCI 4.9, 6.1, 6.5). Of a replay `harm 5` is another
  matter: xhcitrace explain harm-5.

What to write instead
  The segments as the driver has allocated them, each with its number of TRBs,
  the Link TRB's too. An ID that no ring of the trace had before, not even one
  that is gone.

A trace that has it
  Line 3 has a ring whose one segment is 8 bytes off its boundary.

    xtrace 3
    ctx 20
    ring 02 xfer 0000000000030008:0004
";

const MAGIC: &str = "\
a file is no certificate

What is wrong
  A certificate begins with the 8 bytes XHCICRT1. The file has others, or fewer
  bytes: mostly it is another file, or the files of `verify` are in the wrong
  order. Of a replay `harm 6` is another matter: xhcitrace explain harm-6.

What to do
  The trace first, then its certificate: xhcitrace verify TRACE CERT. A
  certificate is written by xhcitrace check --cert CERT TRACE, where the trace
  is accepted.
";

const LENGTH: &str = "\
a certificate is cut off

What is wrong
  Behind its first 8 bytes a certificate has 24 for each lease. The file's rest
  is no multiple of that: it was cut off, or something stands behind it.

What to do
  Write it anew: xhcitrace check --cert CERT TRACE. Where that was ended, or
  the device was full, a beginning may stand in the file.
";

const FIELD: &str = "\
a lease of a certificate is none

What is wrong
  A lease has a kind (0 a TRB, 1 a Link TRB, 2 a range of bytes), of a TRB a
  ring's ID of at most 255, and an end behind its beginning. One of the file's
  has not: its bytes were changed.

What to do
  Write it anew: xhcitrace check --cert CERT TRACE. With --explain the lease is
  named, with the byte at which it begins.
";

/// The page on a line of a plan that names a wrong position.
pub const NOT_GIVEN: &str = "\
a `ret` line of a plan names a position that can not come back

What is wrong
  `ret P` says that the driver has seen all TRBs before position P done, so
  that their places are free. P is above what was put on the ring by then, or
  below what is free already. Positions count the TRBs from 0, without Link
  TRBs.

What to write instead
  A position from the last `ret` line's on, up to the number of TRBs of all
  `sub` lines before.

A plan that has it
  Line 4 frees two TRBs where one was put.

    xplan 1
    ring 02 xfer 0000000000030000:0004
    sub 02 00000000 00000000 00000000 00002020
    ret 0000000000000002
";

const MEMORY: &str = "\
memory is wanted

What is wrong
  The system gave no more memory. Nothing is said of the input; what stands on
  standard output by then is a beginning of the answer.

What to do
  `check` and `verify` keep no rows, and take least; --explain keeps those up to
  the refused one, `show`, `schedule` and `replay` all. Where a limit is set
  (ulimit -v, a container's), raise it, or take the first rows: head -n.
";

/// The page on a file or stream that failed.
pub const DEVICE: &str = "\
a file can't be opened, read or written, or a stream can't be used

What is wrong
  The line behind this one names the file, or the stream, and says what the
  system told of it. Nothing is said of the input. A certificate that can't be
  written is told so too, in place of the verdict.

What to do
  Look at the file's path and its rights, and whether the device is full. A
  standard stream that was closed (<&-, >&-) stays closed. A pipe whose reader
  has ended, as in xhcitrace schedule TRACE | head, ends the program with the
  same status, and no line.
";

/// The page on what is wrong with a line.
pub fn page_on_line(fault: LineFault) -> &'static str {
    match fault {
        LineFault::Header => HEADER,
        LineFault::Row => ROW,
        LineFault::Number => NUMBER,
        LineFault::Limit => LIMIT,
        LineFault::Shape => SHAPE,
    }
}

/// The page on what is wrong with a certificate, or on want of memory.
pub fn page_on_certificate(fault: CertFault) -> &'static str {
    match fault {
        CertFault::Magic => MAGIC,
        CertFault::Length => LENGTH,
        CertFault::Field => FIELD,
        CertFault::Memory => MEMORY,
    }
}
