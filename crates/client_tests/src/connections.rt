//! A thousand commands of a file go over one connection.
use afs_words::Tool;
use client_shell::{Shell, run_source};
use disk_base::{MemSink, MemSource};
use io_base::TcpLink;
use std::alloc::Global;
use std::io::{self, ErrorKind, Read, Write};
use std::net::{Ipv4Addr, SocketAddr, TcpListener, TcpStream};
use std::test::Fail;
use std::thread;

/// Where the server of the test listens: the port of the protection database.
const HOST: &str = "127.0.0.9";

const PORT: u16 = 7_002;

const COMMANDS: u32 = 1_000;

/// The answer to a call that makes an entry: its id is 7. Each command numbers its calls from 1.
const MADE: &[u8; 20] = b"\0\0\0\x10\0\0\0\x02\0\0\0\x01\0\0\0\0\0\0\0\x07";

/// Takes a frame and answers it; false where the peer has closed the connection.
fn answer_one(stream: &mut TcpStream, room: &mut [u8; 1_024]) -> io::Result<bool> {
    let mut head = [0; 4];
    match stream.read_exact(&mut head) {
        Ok(()) => {}
        Err(error) if error.kind() == ErrorKind::UnexpectedEof => return Ok(false),
        Err(error) => return Err(error),
    }
    let length = u32::from_be_bytes(head) as usize;
    if length > room.len() {
        return Ok(false);
    }
    stream.read_exact(&mut room[..length])?;
    stream.write_all(MADE)?;
    Ok(true)
}

/// Answers over one connection until the peer closes it: how many frames came. Then none else has asked for a connection.
fn serve(listener: &TcpListener) -> io::Result<u32> {
    let (mut stream, _) = listener.accept()?;
    let mut room = [0; 1_024];
    let mut answered = 0u32;
    for _ in 0..u64::MAX {
        if !answer_one(&mut stream, &mut room)? {
            break;
        }
        answered = answered.saturating_add(1);
    }
    listener.set_nonblocking(true)?;
    match listener.accept() {
        Ok(_) => Err(io::Error::from(ErrorKind::Other)),
        Err(error) if error.kind() == ErrorKind::WouldBlock => Ok(answered),
        Err(error) => Err(error),
    }
}

fn commands(alloc: Global) -> Result<String, Fail> {
    let mut text = String::new(alloc);
    for number in 0..COMMANDS {
        write!(text, "createuser user{number}\n")?;
    }
    Ok(text)
}

#[test]
fn a_thousand_users_over_one_connection(rt: HostRuntime) -> Result<(), Fail> {
    let alloc = rt.alloc();
    let listener = TcpListener::bind(&rt, SocketAddr::from((Ipv4Addr::new(127, 0, 0, 9), PORT)))?;
    let text = commands(alloc)?;
    let mut source = MemSource::new(alloc, text.as_bytes(), &[])?;
    let mut out = MemSink::new(alloc, &[])?;
    let mut err = MemSink::new(alloc, &[])?;
    let shell = Shell {
        alloc,
        tool: Tool::Pts,
        hosts: HOST,
    };
    let link = TcpLink::make(rt, alloc);
    let (near, peer, from, to, errors) = (&rt, &listener, &mut source, &mut out, &mut err);
    let (served, status) = thread::join(
        near,
        move || serve(peer),
        move || {
            let mut link = link;
            run_source(&shell, from, &mut link, to, errors)
        },
    );
    assert_eq!(rt; status, 0);
    assert_eq!(rt; served?, COMMANDS);
    assert_eq!(rt; err.written(), b"".as_slice());
    assert!(rt;
        out.written()
            .starts_with(b"User user0 has id 7\nUser user1 has id 7\n")
    );
    assert!(rt; out.written().ends_with(b"User user999 has id 7\n"));
    Ok(())
}
