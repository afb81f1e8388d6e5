//! Runs of commands over texts in memory: what stands on which stream, and how that ends.
use answers::{Asked, Status};
use command_runs::{report_check, report_follow, run_check, run_follow, run_replay, run_verify};
use diagnostics::Colors;
use std::io::{self, Cursor, ErrorKind};
use std::test::Fail;

const ASKED: Asked<'static> = Asked {
    input: "the trace",
    explains: false,
    colors: Colors::Plain,
    classifies: false,
};

/// Two blocks are given.
const ACCEPTED: &[u8] =
    b"xtrace 1\nctx 20\nring 02 xfer 0000000000030000:0004\nsub 02 00000000 00000000 00000000 00002020\nw 000000000003000c 00002021\nsub 02 00000000 00000000 00000000 00002020\nw 000000000003001c 00002021\n";

/// Its certificate: a lease of each, from rows 5 and 7 on.
const CERTIFICATE: [u8; 56] = [
    0x58, 0x48, 0x43, 0x49, 0x43, 0x52, 0x54, 0x31, // XHCICRT1
    0, 0, 0, 0, 2, 0, 0, 0, 0, 0, 0, 0, 0, 0, 0, 0, 5, 0, 0, 0, 0xff, 0xff, 0xff, 0xff, //
    0, 0, 0, 0, 2, 0, 0, 0, 1, 0, 0, 0, 0, 0, 0, 0, 7, 0, 0, 0, 0xff, 0xff, 0xff, 0xff,
];

/// As other programs read its answer.
const REPORT: &[u8] =
    b"{\"class\":null,\"file\":\"the trace\",\"head\":null,\"help\":null,\"leases\":2,\"marks\":[],\"name\":null,\"notes\":[],\"number\":null,\"place\":null,\"row\":null,\"verdict\":\"accepted\",\"waiting\":[]}\n";

/// A block is given whose low words weren't written.
const REFUSED: &[u8] =
    b"xtrace 1\nctx 20\nring 02 xfer 0000000000030000:0004\nsub 02 00001000 00000000 00000008 00000420\nw 0000000000030000 00001000\nw 000000000003000c 00000421\n";

/// The same, and behind it a line with a number that is too short.
const UNREADABLE: &[u8] =
    b"xtrace 1\nctx 20\nring 02 xfer 0000000000030000:0004\nsub 02 00001000 00000000 00000008 00000420\nw 0000000000030000 00001000\nw 000000000003000c 00000421\nw 0000000000030000 0000001\n";

/// How a run ends, and what stands on its streams then.
#[derive(Drop)]
struct Ended {
    status: Status,
    out: Vec<u8>,
    err: Vec<u8>,
}

/// Checks what an input holds, with a certificate where there is a place for one.
fn checked(
    rt: &HostRuntime,
    input: io::Result<Cursor<&[u8]>>,
    certificate: &mut Option<Vec<u8>>,
) -> Ended {
    let mut out = Vec::new(rt.alloc());
    let mut err = Vec::new(rt.alloc());
    let ended = run_check(
        rt.alloc(),
        &ASKED,
        None,
        input,
        certificate,
        &mut out,
        &mut err,
    );
    Ended {
        status: ended.status,
        out,
        err,
    }
}

#[test]
fn an_accepted_trace_has_a_certificate_that_is_verified(rt: HostRuntime) -> Result<(), Fail> {
    let mut kept = Some(Vec::new(rt.alloc()));
    let ended = checked(&rt, Ok(Cursor::new(ACCEPTED)), &mut kept);
    assert_eq!(rt; ended.status, Status::Clean);
    assert_eq!(rt; ended.out.as_slice(), b"accepted: 2 leases\n".as_slice());
    assert!(rt; ended.err.is_empty());
    let bytes = kept.ok_or("a certificate")?;
    assert_eq!(rt; bytes.as_slice(), CERTIFICATE.as_slice());

    let mut out = Vec::new(rt.alloc());
    let mut err = Vec::new(rt.alloc());
    let status = run_verify(
        rt.alloc(),
        &ASKED,
        "the certificate",
        Ok(bytes.as_slice()),
        || Ok(Cursor::new(ACCEPTED)),
        &mut out,
        &mut err,
    );
    assert_eq!(rt; status, Status::Clean);
    assert_eq!(rt; out.as_slice(), b"yes\n".as_slice());
    assert!(rt; err.is_empty());
    Ok(())
}

#[test]
fn a_refused_trace_has_no_certificate(rt: HostRuntime) -> Result<(), Fail> {
    let mut kept = Some(Vec::new(rt.alloc()));
    let ended = checked(&rt, Ok(Cursor::new(REFUSED)), &mut kept);
    assert_eq!(rt; ended.status, Status::Unclean);
    assert_eq!(rt;
        ended.out.as_slice(),
        b"row 6: 11 NotAsSubmitted\n".as_slice()
    );
    assert!(rt; ended.err.is_empty());
    assert!(rt; kept.ok_or("a place for a certificate")?.is_empty());
    Ok(())
}

#[test]
fn what_hinders_an_answer_goes_to_the_other_stream(rt: HostRuntime) {
    let ended = checked(&rt, Ok(Cursor::new(UNREADABLE)), &mut None);
    assert_eq!(rt; ended.status, Status::Unreadable);
    assert!(rt; ended.out.is_empty());
    assert_eq!(rt;
        ended.err.as_slice(),
        b"xhcitrace: line 7: 3 Number\n".as_slice()
    );

    let ended = checked(&rt, Err(ErrorKind::NotFound.into()), &mut None);
    assert_eq!(rt; ended.status, Status::Unanswered);
    assert!(rt; ended.out.is_empty());
    assert_eq!(rt;
        ended.err.as_slice(),
        b"xhcitrace: 31 Device\nxhcitrace: the trace: entity not found\n".as_slice()
    );
}

#[test]
fn an_accepted_trace_as_an_object(rt: HostRuntime) -> Result<(), Fail> {
    let mut kept = Some(Vec::new(rt.alloc()));
    let mut out = Vec::new(rt.alloc());
    let input = Ok(Cursor::new(ACCEPTED));
    let ended = report_check(rt.alloc(), ASKED.input, None, input, &mut kept, &mut out)?;
    assert_eq!(rt; ended.status, Status::Clean);
    assert_eq!(rt; out.as_slice(), REPORT);
    assert_eq!(rt;
        kept.ok_or("a certificate")?.as_slice(),
        CERTIFICATE.as_slice()
    );
    Ok(())
}

/// Checks what an input holds as it comes.
fn followed(rt: &HostRuntime, text: &[u8]) -> Ended {
    let mut out = Vec::new(rt.alloc());
    let mut err = Vec::new(rt.alloc());
    let input = Ok(Cursor::new(text));
    let ended = run_follow(rt.alloc(), &ASKED, input, &mut out, &mut err);
    Ended {
        status: ended.status,
        out,
        err,
    }
}

#[test]
fn a_trace_as_it_comes(rt: HostRuntime) -> Result<(), Fail> {
    let ended = followed(&rt, ACCEPTED);
    assert_eq!(rt; ended.status, Status::Clean);
    assert_eq!(rt; ended.out.as_slice(), b"accepted: 2 leases\n".as_slice());
    let ended = followed(&rt, UNREADABLE);
    assert_eq!(rt; ended.status, Status::Unclean);
    assert_eq!(rt;
        ended.out.as_slice(),
        b"row 6: 11 NotAsSubmitted\n".as_slice()
    );
    assert!(rt; ended.err.is_empty());

    let mut out = Vec::new(rt.alloc());
    let input = Ok(Cursor::new(ACCEPTED));
    let ended = report_follow(rt.alloc(), ASKED.input, input, &mut out)?;
    assert_eq!(rt; ended.status, Status::Clean);
    assert_eq!(rt; out.as_slice(), REPORT);
    Ok(())
}

/// A block is handed over, and its first word is written behind that.
const WRITTEN_BEHIND: &[u8] = b"xtrace 1\n\
ctx 20\n\
ring 00 cmd 0000000000010000:0010\n\
reg crcr 0000000000010001\n\
reg usbcmd 0000000000000001\n\
sub 00 00000000 00000000 00000000 00005c00\n\
w 000000000001000c 00005c01\n\
db 00 00\n\
w 0000000000010000 00000001\n";

/// Behind all its rows the controller looks at the ring.
const LOOKS_LATE: &[u8] = b"xsched 1\nrow\nrow\nrow\nrow\nrow\nrow\nlook 00\n";

#[test]
fn a_replay_tells_what_is_taken_and_the_harm(rt: HostRuntime) {
    let mut out = Vec::new(rt.alloc());
    let mut err = Vec::new(rt.alloc());
    let status = run_replay(
        rt.alloc(),
        &ASKED,
        "the schedule",
        Ok(WRITTEN_BEHIND),
        || Ok(LOOKS_LATE),
        &mut out,
        &mut err,
    );
    assert_eq!(rt; status, Status::Unclean);
    assert_eq!(rt;
        out.as_slice(),
        b"took 00 0000000000010000 00000001 00000000 00000000 00005c01\nstep 7: harm 2\n".as_slice()
    );
    assert!(rt; err.is_empty());
}
