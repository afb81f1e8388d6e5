//! Lines of rings whose segments make no ring, or that can't stand beside earlier ones.
use crate::faults::{Why, is_header_line};
use std::alloc::{AllocError, Global};
use std::str::from_utf8;
use trb::RingKind;

/// A segment as a line says it: its first address and its number of TRBs.
#[derive(Clone, Copy)]
struct Part {
    base: u64,
    count: u64,
}

impl Part {
    fn bytes(self) -> u64 {
        self.count.saturating_mul(16)
    }

    fn meets(self, other: Part) -> bool {
        if self.base < other.base {
            other.base - self.base < self.bytes()
        } else {
            self.base - other.base < other.bytes()
        }
    }
}

/// The kind that a line says.
fn kind_of(line: &[u8]) -> RingKind {
    let word = line.split(|b| *b == b' ').nth(2).unwrap_or(&[]);
    match from_utf8(word).unwrap_or("") {
        "cmd" => RingKind::Cmd,
        "evt" => RingKind::Evt,
        _ => RingKind::Xfer,
    }
}

/// A number in hex; 0 where the bytes are none.
fn hex(bytes: &[u8]) -> u64 {
    u64::from_str_radix(from_utf8(bytes).unwrap_or("0"), 16).unwrap_or(0)
}

/// The segments that a line says.
fn parts_of(alloc: Global, line: &[u8]) -> Result<Vec<Part>, AllocError> {
    let mut parts = Vec::new(alloc);
    for field in line.split(|b| *b == b' ').skip(3) {
        let mut numbers = field.split(|b| *b == b':');
        let base = hex(numbers.next().unwrap_or(&[]));
        let count = hex(numbers.next().unwrap_or(&[]));
        parts.push(Part { base, count })?;
    }
    Ok(parts)
}

/// The condition that a ring's line of a trace breaks.
pub(crate) fn ring_fault(
    alloc: Global,
    text: &[u8],
    line: &[u8],
    number: u32,
) -> Result<Why, AllocError> {
    let kind = kind_of(line);
    let parts = parts_of(alloc, line)?;
    if let Some(why) = parts_fault(alloc, kind, parts.as_slice())? {
        return Ok(why);
    }
    match clash(alloc, text, line, number, kind, parts.as_slice())? {
        Some(why) => Ok(why),
        None => too_short(alloc),
    }
}

/// The condition that the line of a plan's ring breaks.
pub(crate) fn plan_ring_fault(alloc: Global, line: &[u8]) -> Result<Why, AllocError> {
    let kind = kind_of(line);
    if kind == RingKind::Evt {
        return Why::plain(
            alloc,
            "the ring of a plan is one that the driver fills, and no Event Ring",
            "write `ring ID cmd|xfer BASE:COUNT ..`",
        );
    }
    let parts = parts_of(alloc, line)?;
    match parts_fault(alloc, kind, parts.as_slice())? {
        Some(why) => Ok(why),
        None => too_short(alloc),
    }
}

/// A ring with no room for a TRB.
fn too_short(alloc: Global) -> Result<Why, AllocError> {
    Why::plain(
        alloc,
        "the ring has fewer than two TRBs beside its Link TRBs",
        "a segment's last TRB is its Link TRB, and one TRB of a ring stays free: use a longer one",
    )
}

/// The condition that the segments of a ring break, by themselves.
fn parts_fault(alloc: Global, kind: RingKind, parts: &[Part]) -> Result<Option<Why>, AllocError> {
    if parts.len() > 64 {
        let count = parts.len();
        return Ok(Some(Why {
            head: format!(in alloc; "the ring has {count} segments, and may have 64")?,
            earlier: None,
            note: None,
            help: "use fewer, longer segments",
        }));
    }
    for part in parts {
        if let Some(why) = part_fault(alloc, kind, *part)? {
            return Ok(Some(why));
        }
    }
    for (index, part) in parts.iter().enumerate() {
        if let Some(other) = parts.iter().take(index).find(|other| other.meets(*part)) {
            let (base, first) = (part.base, other.base);
            return Ok(Some(Why {
                head: format!(in alloc;
                    "the segment at {base:016x} overlaps the ring's segment at {first:016x}"
                )?,
                earlier: None,
                note: None,
                help: "give each segment memory of its own",
            }));
        }
    }
    Ok(None)
}

/// The condition that a segment breaks.
fn part_fault(alloc: Global, kind: RingKind, part: Part) -> Result<Option<Why>, AllocError> {
    let (base, count) = (part.base, part.count);
    let (least, boundary) = match kind {
        RingKind::Evt => (16, 64),
        RingKind::Cmd => (2, 64),
        RingKind::Xfer => (2, 16),
    };
    if count < least || count > 4096 {
        let kind = kind.name();
        return Ok(Some(Why {
            head: format!(in alloc;
                "a segment of the `{kind}` ring has {count} TRBs, and must have {least} to 4096"
            )?,
            earlier: None,
            note: None,
            help: "COUNT is in hex, and counts the Link TRB of a cmd or xfer segment too",
        }));
    }
    if base % boundary != 0 {
        let kind = kind.name();
        return Ok(Some(Why {
            head: format!(in alloc;
                "a segment of a `{kind}` ring lies on a {boundary}-byte boundary, and {base:016x} is none"
            )?,
            earlier: None,
            note: None,
            help: "write the segment's first address (xHCI table 6-1)",
        }));
    }
    if base > u64::MAX - (16 * count - 1) {
        let head = format!(in alloc; "the segment at {base:016x} ends above 2^64")?;
        return Ok(Some(Why {
            head,
            earlier: None,
            note: None,
            help: "write the segment's first address and its number of TRBs, in hex",
        }));
    }
    if base % 0x10000 + 16 * count > 0x10000 {
        let page = (base / 0x10000)
            .saturating_mul(0x10000)
            .saturating_add(0x10000);
        return Ok(Some(Why {
            head: format!(in alloc; "the segment crosses the 64 KB boundary at {page:016x}")?,
            earlier: None,
            note: None,
            help: "no segment of a ring may (xHCI table 6-1): lay it elsewhere, or use two",
        }));
    }
    Ok(None)
}

/// How a ring clashes with one of an earlier line. All lines before it are good.
fn clash(
    alloc: Global,
    text: &[u8],
    line: &[u8],
    number: u32,
    kind: RingKind,
    parts: &[Part],
) -> Result<Option<Why>, AllocError> {
    let id = id_of(line);
    let comes = !is_header_line(text, number);
    let before = (number as usize).saturating_sub(1);
    let mut earlier_number = 1u32;
    for earlier in text.split(|b| *b == b'\n').take(before) {
        if earlier.starts_with(b"ring ") {
            let why = if comes {
                used_id(alloc, earlier, earlier_number, id)?
            } else {
                clash_with(alloc, earlier, earlier_number, id, kind, parts)?
            };
            if why.is_some() {
                return Ok(why);
            }
        }
        earlier_number = earlier_number.saturating_add(1);
    }
    Ok(None)
}

/// The ID that the line of a ring says.
fn id_of(line: &[u8]) -> u64 {
    hex(line.split(|b| *b == b' ').nth(1).unwrap_or(&[]))
}

/// A ring that comes between rows has the ID of that of an earlier line.
fn used_id(alloc: Global, earlier: &[u8], number: u32, id: u64) -> Result<Option<Why>, AllocError> {
    if id_of(earlier) != id {
        return Ok(None);
    }
    Ok(Some(Why {
        head: format!(in alloc; "ring ID {id:02x} was used before")?,
        earlier: Some((number, "by this ring")),
        note: None,
        help: "give each ring an ID of its own, also where the earlier one has gone",
    }))
}

/// How a ring of the header clashes with that of an earlier line.
fn clash_with(
    alloc: Global,
    earlier: &[u8],
    number: u32,
    id: u64,
    kind: RingKind,
    parts: &[Part],
) -> Result<Option<Why>, AllocError> {
    let other = id_of(earlier);
    if other == id {
        return Ok(Some(Why {
            head: format!(in alloc; "ring ID {id:02x} is in use")?,
            earlier: Some((number, "this ring has the ID")),
            note: None,
            help: "give each ring an ID of its own",
        }));
    }
    if kind != RingKind::Xfer && kind_of(earlier) == kind {
        let name = kind.name();
        return Ok(Some(Why {
            head: format!(in alloc; "a trace has one `{name}` ring")?,
            earlier: Some((number, "the trace's ring of this kind")),
            note: None,
            help: "leave one of the two out",
        }));
    }
    let others = parts_of(alloc, earlier)?;
    match parts
        .iter()
        .find(|part| others.iter().any(|other| other.meets(**part)))
    {
        Some(part) => {
            let base = part.base;
            Ok(Some(Why {
                head: format!(in alloc; "the segment at {base:016x} overlaps ring {other:02x}")?,
                earlier: Some((number, "this ring has memory of it")),
                note: None,
                help: "give each ring memory of its own",
            }))
        }
        None => Ok(None),
    }
}
