//! Files of a few lines, over a link in memory.
use afs_words::Tool;
use client_shell::{Shell, run_source};
use disk_base::{MemSink, MemSource};
use io_base::{Answer, MemAnswer, MemLink};
use std::alloc::Global;
use std::process::Abort;
use std::test::Fail;
use ubik_types::{Host, bytes_of};

/// 10.0.0.1.
const HOST: Host = Host(167_772_161);

/// The answer to `listmax`.
const MAXIMA: &[u8; 24] = b"\0\0\0\x14\0\0\0\x02\0\0\0\x01\0\0\0\0\0\0\0\x06\xff\xff\xff-";

/// A file, how many of its calls are answered, what is written, and the status.
#[derive(Clone, Copy)]
struct Case {
    text: &'static [u8],
    answers: u32,
    out: &'static [u8],
    err: &'static [u8],
    status: u8,
}

const TOLD: &[u8] = b"Max user id is 6 and max group id is -211.\n";

fn link_of(alloc: Global, answers: u32) -> Result<MemLink, Fail> {
    let mut items = Vec::new(alloc);
    for _ in 0..answers {
        items.push(MemAnswer {
            host: HOST,
            answer: Answer::Got,
            reply: bytes_of(alloc, MAXIMA)?,
        })?;
    }
    Ok(MemLink::new(items))
}

fn run_case(rt: &impl Abort, alloc: Global, case: &Case) -> Result<(), Fail> {
    let mut source = MemSource::new(alloc, case.text, &[])?;
    let mut link = link_of(alloc, case.answers)?;
    let mut out = MemSink::new(alloc, &[])?;
    let mut err = MemSink::new(alloc, &[])?;
    let shell = Shell {
        alloc,
        tool: Tool::Pts,
        hosts: "10.0.0.1",
    };
    let status = run_source(&shell, &mut source, &mut link, &mut out, &mut err);
    assert_eq!(rt; out.written(), case.out);
    assert_eq!(rt; err.written(), case.err);
    assert_eq!(rt; status, case.status);
    assert_eq!(rt; link.left().len(), 0);
    Ok(())
}

#[test]
fn files_of_commands(rt: HostRuntime) -> Result<(), Fail> {
    for case in [
        Case {
            text: b"\n# listmax\n \t\n",
            answers: 0,
            out: b"",
            err: b"",
            status: 0,
        },
        Case {
            text: b"listmax\n\"listmax\"",
            answers: 2,
            out: b"Max user id is 6 and max group id is -211.\nMax user id is 6 and max group id is -211.\n",
            err: b"",
            status: 0,
        },
        Case {
            text: b"listmax\nlistmax\nlistmax\n",
            answers: 1,
            out: TOLD,
            err: b"pts: no server\npts: line 2 ended with 3\n",
            status: 3,
        },
        Case {
            text: b"examine \"a b\nlistmax\n",
            answers: 0,
            out: b"",
            err: b"pts: a quote does not end\npts: line 1 ended with 2\n",
            status: 2,
        },
        Case {
            text: b"#\nsource more\n",
            answers: 0,
            out: b"",
            err: b"pts: 'source' stands in no file of commands\npts: line 2 ended with 2\n",
            status: 2,
        },
        Case {
            text: b"listmax -hosts 10.0.0\n",
            answers: 0,
            out: b"",
            err: b"pts: the hosts are not 1 to 20 distinct addresses, joined by commas\npts: line 1 ended with 2\n",
            status: 2,
        },
    ] {
        run_case(&rt, rt.alloc(), &case)?;
    }
    Ok(())
}
