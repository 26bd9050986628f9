use super::*;
use crate::steps::{step_of, stepped};
use coordinator::{Answer, Session, SessionFault, Step};
use disk::NotOpened;
use frames::SocketPort;
use std::io::Write;
use std::os::unix::net::UnixStream;
use std::test::Fail;
use wire::PortFault;

// Sessions over a socket without a node at the other end: the test writes the replies itself.

/// The frame of a reply: one handled message, and one sent message of time 3 for process 1.
const REPLY: [u8; 75] = [
    0, 0, 0, 70, 3, 0, 0, 0, 1, 0, 0, 0, 0, 0, 0, 0, 0, 3, 0, 0, 0, 0, 0, 0, 0, 0, 0, 0, 0, 1, 0,
    0, 0, 1, 0, 0, 0, 0, 0, 0, 0, 0, 0, 0, 0, 0, 0, 0, 0, 1, 0, 0, 0, 0, 0, 0, 0, 0, 0, 0, 0, 0, 0,
    0, 0, 0, 0, 0, 0, 0, 0, 0, 0, 0, 1,
];

/// Takes a reply whose message is for process `to`. Returns the answer, the answer of a post after
/// it, and the number of messages in transit.
fn answered(
    rt: HostRuntime,
    to: u8,
) -> Result<
    (
        Result<Answer, SessionFault>,
        Result<Answer, SessionFault>,
        usize,
    ),
    Fail,
> {
    let alloc = rt.alloc();
    let ring = two_tokens();
    let (near, mut far) = UnixStream::pair(&rt)?;
    let mut reply = REPLY;
    reply[33] = to;
    far.write_all(&reply)?;
    let mut ports = Vec::new(alloc);
    ports.push(SocketPort::new(alloc, near))?;
    let disk = formatted(alloc, &ring, 64, END)?;
    let mut session = match Session::open(alloc, &ring, ports, disk, END) {
        Ok(session) => session,
        Err(NotOpened { fault, disk: _ }) => return Err(Fail::from(fault)),
    };
    let post = step_of(alloc, "post 0 1")?;
    stepped(&mut session, &post)?;
    let taken = stepped(&mut session, &Step::Take { node: 0 });
    let again = stepped(&mut session, &post);
    Ok((taken, again, session.transit().len()))
}

#[test]
fn a_reply_for_an_existing_process_is_taken(rt: HostRuntime) -> Result<(), Fail> {
    let (taken, again, travels) = answered(rt, 2)?;
    assert!(rt;
        taken
            == Ok(Answer::Taken {
                ran: 1,
                out: 1,
                fossils: 0
            })
    );
    assert!(rt; again.is_ok());
    assert_eq!(rt; travels, 1);
    Ok(())
}

#[test]
fn a_reply_for_an_unknown_process_ends_the_session(rt: HostRuntime) -> Result<(), Fail> {
    let (taken, again, travels) = answered(rt, 3)?;
    assert!(rt; taken == Err(SessionFault::Port(PortFault::BadReply)));
    assert!(rt; again == Err(SessionFault::Spent));
    assert_eq!(rt; travels, 0);
    Ok(())
}
