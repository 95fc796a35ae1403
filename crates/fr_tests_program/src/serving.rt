//! A connection over a socket. The check would let pass a server from which no client reads a reply.
use crate::fixture::{CLUSTER, PLAN, carried_out};
use fr_cli::{LocalListener, serve_next};
use fr_desks::MemoryDesk;
use fr_http::Engine;
use fr_text::read_config;
use std::io::{Read, Write};
use std::net::{Ipv4Addr, Shutdown, TcpListener, TcpStream};
use std::test::Fail;

const REQUEST: &[u8] =
    b"GET /v1/variants/v1/schedule HTTP/1.1\r\nHost: localhost\r\nX-Office-Key: supplier01\r\n\r\n";

const REPLY: &[u8] = b"HTTP/1.1 200 OK\r\ncontent-type: text/plain; charset=us-ascii\r\n\
content-length: 16\r\nconnection: close\r\n\r\n00 0001 A f1 n1\n";

/// A client asks for its schedule, and reads the reply to its end.
#[test]
fn a_client_reads_its_schedule(rt: HostRuntime) -> Result<(), Fail> {
    let config = read_config(rt.alloc(), CLUSTER.as_bytes())?;
    let mut desk = MemoryDesk::new(rt.alloc(), &config)?;
    carried_out(rt.alloc(), &mut desk, &PLAN)?;
    let listener = TcpListener::bind(&rt, (Ipv4Addr::LOCALHOST, 0))?;
    let mut client = TcpStream::connect(&rt, listener.local_addr()?)?;
    client.write_all(REQUEST)?;
    client.shutdown(Shutdown::Write)?;
    let mut listener = LocalListener::of(&rt, listener);
    let engine = Engine::new(rt.alloc())?;
    assert!(rt; serve_next(&engine, &mut listener, 10, &mut desk)?.is_ok());
    let mut reply = Vec::new(rt.alloc());
    let _ = client.read_to_end(&mut reply)?;
    assert!(rt; reply.as_slice() == REPLY);
    Ok(())
}
