use std::alloc::AllocError;
use std::test::Fail;
use trace_reader::{
    LineFault, PlanLine, ReadFault, Row, Step, print_schedule, print_trace, read_plan,
    read_schedule, read_trace,
};

const TRACE: &str =
    "xtrace 1\nctx 40\nring 00 cmd 0000000000010000:0010\nring 02 xfer 0000000000030000:0004 0000000000040000:0002\nsub 02 00000001 00000002 00000003 00000004\nw 0000000000030000 0000000a\nreg crcr fedcba9876543210\ndb 01 02\nev 00000005 00000006 00000007 00000008\n";

const ROWS_OF_RINGS: &str =
    "xtrace 2\nctx 20\nring 02 xfer 0000000000030000:0004\nw 0000000000030000 0000000A\nring 03 xfer 0000000000040000:0004\nnop 02 0000000000000001\nfree 03\n";

const PLAN: &str =
    "xplan 1\nring 02 xfer 0000000000030000:0004\nsub 02 00000001 00000002 00000003 00000004\nret 0000000000000001\n";

const SCHEDULE: &str =
    "xsched 1\nrow\nlook 0a\nreport 00000001 00000002 00000003 0000000d\nfinish 00000005 00000006 00000007 00000008\nother 00000009 0000000a 0000000b 0000000c\nscrib 00000000000abcd0 0000000f\n";

#[test]
fn reads_and_prints_a_trace(rt: HostRuntime) -> Result<(), Fail> {
    let trace = read_trace(rt.alloc(), TRACE.as_bytes())?;
    assert_eq!(rt; trace.first, 5);
    assert_eq!(rt; trace.header.rings.as_slice().len(), 2);
    assert_eq!(rt; trace.rows.as_slice().len(), 5);
    let out = print_trace(rt.alloc(), &trace)?;
    assert_eq!(rt; out.as_slice(), TRACE.as_bytes());
    Ok(())
}

#[test]
fn reads_and_prints_rows_of_each_kind(rt: HostRuntime) -> Result<(), Fail> {
    let trace = read_trace(rt.alloc(), ROWS_OF_RINGS.as_bytes())?;
    assert_eq!(rt; trace.first, 4);
    assert_eq!(rt; trace.header.rings.as_slice().len(), 1);
    assert!(rt;
        matches!(
            trace.rows.as_slice(),
            [
                Row::Write { at: _, word: 10 },
                Row::Ring { ring: _ },
                Row::Nop {
                    ring: 2,
                    position: 1,
                },
                Row::Free { ring: 3 },
            ]
        )
    );
    let lower = ROWS_OF_RINGS.to_ascii_lowercase(rt.alloc())?;
    assert_eq!(rt;
        print_trace(rt.alloc(), &trace)?.as_slice(),
        lower.as_bytes()
    );
    Ok(())
}

#[test]
fn reads_a_plan(rt: HostRuntime) -> Result<(), Fail> {
    let plan = read_plan(rt.alloc(), PLAN.as_bytes())?;
    assert_eq!(rt; plan.ring.id, 2);
    assert_eq!(rt; plan.ring.shape.places(), 3);
    let [PlanLine::Sub { ring, blocks }, PlanLine::Ret { upto }] = plan.lines.as_slice() else {
        return Err("a declaration and a position".into());
    };
    assert_eq!(rt; *ring, 2);
    assert_eq!(rt; blocks.as_slice().len(), 1);
    assert_eq!(rt; *upto, 1);
    let alone = read_plan(rt.alloc(), b"xplan 1\nring AB cmd 00000000000F0000:0010\n")?;
    assert_eq!(rt; alone.ring.id, 0xab);
    assert_eq!(rt; alone.lines.as_slice().len(), 0);
    Ok(())
}

#[test]
fn reads_and_prints_a_schedule(rt: HostRuntime) -> Result<(), Fail> {
    let schedule = read_schedule(rt.alloc(), SCHEDULE.as_bytes())?;
    assert_eq!(rt; schedule.steps.as_slice().len(), 6);
    assert!(rt;
        matches!(
            schedule.steps.as_slice(),
            [Step::NextRow, Step::Look { ring: 10 }, ..]
        )
    );
    let out = print_schedule(rt.alloc(), &schedule)?;
    assert_eq!(rt; out.as_slice(), SCHEDULE.as_bytes());
    Ok(())
}

#[test]
fn says_why_no_text_was_read(rt: HostRuntime) -> Result<(), AllocError> {
    let fault = ReadFault::Line {
        line: 3,
        code: LineFault::Shape,
    };
    assert_eq!(rt;
        format!(in rt.alloc(); "{fault}")?.as_str(),
        "line 3: Shape"
    );
    assert_eq!(rt;
        format!(in rt.alloc(); "{}", ReadFault::Memory)?.as_str(),
        "memory is wanted"
    );
    Ok(())
}
