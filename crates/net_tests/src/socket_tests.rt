//! A connection over the loopback address.
use bim_io::{Clock, Sink, Source};
use bim_model::Text;
use bim_net::{Door, EndKind, Gate, Host, LinkEnd};
use bim_sockets::{NetHost, TcpDoor};
use std::io::{Read, Write};
use std::net::{TcpListener, TcpStream};
use std::test::Fail;

#[test]
fn a_door_gives_what_is_connected(rt: HostRuntime) -> Result<(), Fail> {
    let listener = TcpListener::bind(&rt, "127.0.0.1:0")?;
    let addr = listener.local_addr()?;
    let mut peer = TcpStream::connect(&rt, addr)?;
    let mut door = TcpDoor::new(listener, 0);
    let Ok(Some(mut link)) = door.accept() else {
        panic!(rt; "no connection")
    };
    peer.write_all(b"ab")?;
    let mut room = [0; 4];
    let Ok(count) = link.source.read(&mut room) else {
        panic!(rt; "no read")
    };
    assert_eq!(rt; &room[..count], b"ab".as_slice());
    assert_eq!(rt; link.sink.write(b"cd").ok(), Some(2));
    door.give_back(
        link,
        LinkEnd {
            kind: EndKind::Closed,
            last: 0,
        },
    );
    let mut back = [0; 2];
    peer.read_exact(&mut back)?;
    assert_eq!(rt; &back, b"cd");
    Ok(())
}

#[test]
fn a_host_opens_and_closes(rt: HostRuntime) -> Result<(), Fail> {
    let alloc = rt.alloc();
    let mut host = NetHost::new(alloc, rt);
    let addr = Text::of(alloc, "127.0.0.1:0")?;
    let Ok(doors) = host.open_doors(alloc, &addr, 2) else {
        panic!(rt; "no doors")
    };
    assert_eq!(rt; doors.len(), 2);
    host.close_doors(doors);
    assert!(rt; host.clock().now() > 1_700_000_000);
    let gate = host.gate(1);
    gate.before_call(0, true);
    gate.lane_ended(0);
    assert!(rt; gate.closed());
    let nowhere = Text::of(alloc, "127.0.0.1:99999")?;
    assert!(rt; host.open_doors(alloc, &nowhere, 1).is_err());
    Ok(())
}
