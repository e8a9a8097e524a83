//! What workers count, and that they work side by side.
use crate::{Tally, Worked, Worker, serve_door, serve_doors};
use call_forms::{Asked, Standin, Told};
use doors::{MemoryDoor, TcpDoor};
use outside::MemoryLink;
use std::alloc::{AllocError, Global};
use std::io::{Read, Write};
use std::net::{Net, OpenStream, Shutdown, SocketAddr, TcpListener, TcpStream};
use std::process::Abort;
use std::sync::atomic::{AtomicBool, AtomicU64, Ordering};
use std::test::Fail;
use std::{hint, io};
use tellers::Teller;

const CALL: &[u8] = b"POST /prpc/a/b HTTP/1.1\r\nContent-Length: 0\r\n\r\n";

const NO_CALL: &[u8] = b"no call\r\n\r\n";

/// How often a flag is looked at before it is given up.
const MOST_LOOKS: u64 = 100_000_000;

/// A teller that serves no calls.
#[derive(Drop)]
struct Shut {
    asked: u64,
}

impl Teller for Shut {
    ghost use Rattle.std.specs.Prelude.{[]};

    ghost stands = { λ _ _ _. Unit {0} };

    ghost holds = { λ _. [] };

    fn tell(&mut self, _asked: &Asked) -> Told {
        self.asked = self.asked.saturating_add(1);
        Told::Standin(Standin::Spent)
    }
}

/// Two tellers that share a flag: the one waits for it, the other one raises it.
#[derive(Drop)]
struct Flagged<'a> {
    flag: &'a AtomicBool,
    raises: bool,
    saw: bool,
}

impl Teller for Flagged<'_> {
    ghost use Rattle.std.specs.Prelude.{[]};

    ghost stands = { λ _ _ _. Unit {0} };

    ghost holds = { λ _. [] };

    fn tell(&mut self, _asked: &Asked) -> Told {
        if self.raises {
            self.flag.store(true, Ordering::SeqCst);
        }
        for _ in 0..MOST_LOOKS {
            if self.flag.load(Ordering::SeqCst) {
                self.saw = true;
                break;
            }
            hint::spin_loop();
        }
        Told::Standin(Standin::Spent)
    }
}

/// A link on which these bytes come in, one piece each.
fn link_of(alloc: Global, bytes: &[&[u8]]) -> Result<MemoryLink, AllocError> {
    let mut pieces = Vec::new(alloc);
    for piece in bytes {
        pieces.push(piece.to_vec(alloc)?)?;
    }
    MemoryLink::new(alloc, pieces, Vec::new(alloc))
}

/// A door that gives these links, and fails at the calls that are listed.
fn door_of(
    alloc: Global,
    links: &[&[&[u8]]],
    fails: Vec<u64>,
) -> Result<MemoryDoor<MemoryLink>, AllocError> {
    let mut coming = Vec::new(alloc);
    for bytes in links {
        coming.push(link_of(alloc, bytes)?)?;
    }
    MemoryDoor::new(alloc, coming, fails)
}

/// Each link that was given back has the replies to so many calls and nothing else, where it is
/// said.
fn check_replies(rt: &impl Abort, door: &MemoryDoor<MemoryLink>, counts: &[Option<usize>]) {
    let reply = Standin::Spent.bytes(false);
    assert_eq!(rt; door.returned().len(), counts.len());
    for (link, count) in door.returned().iter().zip(counts) {
        if let Some(count) = count {
            let written = link.written();
            assert_eq!(rt; written.len(), count.saturating_mul(reply.len()));
            assert!(rt; written.starts_with(reply));
        }
    }
}

#[test]
fn links_are_served_to_the_end_of_a_door(rt: HostRuntime) -> Result<(), Fail> {
    let links: [&[&[u8]]; 3] = [&[CALL, CALL], &[NO_CALL], &[CALL]];
    let mut door = door_of(rt.alloc(), &links, Vec::new(rt.alloc()))?;
    let mut teller = Shut { asked: 0 };
    let tally = serve_door(&rt, rt.alloc(), &mut door, &mut teller);
    assert_eq!(rt;
        tally,
        Tally {
            connections: 3,
            calls: 3,
            failed: false
        }
    );
    assert_eq!(rt; teller.asked, 3);
    check_replies(&rt, &door, &[Some(2), None, Some(1)]);
    Ok(())
}

#[test]
fn a_door_that_fails_ends_the_work(rt: HostRuntime) -> Result<(), Fail> {
    let links: [&[&[u8]]; 2] = [&[CALL], &[CALL]];
    let mut door = door_of(rt.alloc(), &links, vec![in rt.alloc(); 2]?)?;
    let mut teller = Shut { asked: 0 };
    let tally = serve_door(&rt, rt.alloc(), &mut door, &mut teller);
    assert_eq!(rt;
        tally,
        Tally {
            connections: 1,
            calls: 1,
            failed: true
        }
    );
    check_replies(&rt, &door, &[Some(1)]);
    Ok(())
}

/// A worker with a door of one link, on which one call comes in.
fn flagged_worker<'a>(
    alloc: Global,
    flag: &'a AtomicBool,
    raises: bool,
) -> Result<Worker<MemoryDoor<MemoryLink>, Flagged<'a>>, AllocError> {
    let links: [&[&[u8]]; 1] = [&[CALL]];
    Ok(Worker {
        door: door_of(alloc, &links, Vec::new(alloc))?,
        teller: Flagged {
            flag,
            raises,
            saw: false,
        },
    })
}

#[test]
fn workers_work_side_by_side(rt: HostRuntime) -> Result<(), Fail> {
    let flag = AtomicBool::new(false);
    let mut workers = Vec::new(rt.alloc());
    for raises in [false, true] {
        workers.push(flagged_worker(rt.alloc(), &flag, raises)?)?;
    }
    let Ok(all) = serve_doors(&rt, rt.alloc(), workers) else {
        return Err(Fail::from("no memory"));
    };
    assert_eq!(rt; all.len(), 2);
    for Worked {
        door,
        teller,
        tally,
    } in &all {
        assert!(rt; teller.saw, "the other worker worked meanwhile");
        assert_eq!(rt;
            (tally.connections, tally.calls, tally.failed),
            (1, 1, false)
        );
        check_replies(&rt, door, &[Some(1)]);
    }
    Ok(())
}

const LARGE_CALL: &[u8] = b"POST /prpc/a/b HTTP/1.1\r\nContent-Length: 4194304\r\n\r\n";

/// As many bytes as a body may have: the room has place for two.
const MOST_BODY: usize = 4 * 1024 * 1024;

/// How long a large body is read.
const STAY: u64 = 1_000_000;

/// How many are reading large bodies, and whether a small one was told meanwhile.
#[derive(Drop)]
struct Reading {
    large: AtomicU64,
    small_was_told: AtomicBool,
}

/// A teller that stays with a large body until a small one was told, and then for a while.
#[derive(Drop)]
struct Watcher<'a> {
    reading: &'a Reading,
    /// At most two large bodies were read at once, and small ones beside them.
    saw_it: bool,
}

impl Watcher<'_> {
    fn read_small(&mut self) {
        for _ in 0..MOST_LOOKS {
            if self.reading.large.load(Ordering::SeqCst) > 0 {
                self.saw_it = true;
                break;
            }
            hint::spin_loop();
        }
        self.reading.small_was_told.store(true, Ordering::SeqCst);
    }

    fn read_large(&mut self) {
        self.reading.large.fetch_add(1, Ordering::SeqCst);
        for _ in 0..MOST_LOOKS {
            if self.reading.small_was_told.load(Ordering::SeqCst) {
                self.saw_it = true;
                break;
            }
            hint::spin_loop();
        }
        for _ in 0..STAY {
            if self.reading.large.load(Ordering::SeqCst) > 2 {
                self.saw_it = false;
            }
            hint::spin_loop();
        }
        self.reading.large.fetch_sub(1, Ordering::SeqCst);
    }
}

impl Teller for Watcher<'_> {
    ghost use Rattle.std.specs.Prelude.{[]};

    ghost stands = { λ _ _ _. Unit {0} };

    ghost holds = { λ _. [] };

    fn tell(&mut self, asked: &Asked) -> Told {
        if asked.body.as_slice().is_empty() {
            self.read_small();
        } else {
            self.read_large();
        }
        Told::Standin(Standin::Spent)
    }
}

/// A worker with a door of one link, on which these bytes come in.
fn watching_worker<'a>(
    alloc: Global,
    reading: &'a Reading,
    link: &[&[u8]],
) -> Result<Worker<MemoryDoor<MemoryLink>, Watcher<'a>>, AllocError> {
    Ok(Worker {
        door: door_of(alloc, &[link], Vec::new(alloc))?,
        teller: Watcher {
            reading,
            saw_it: false,
        },
    })
}

#[test]
fn two_large_bodies_are_read_at_once_and_small_ones_beside_them(
    rt: HostRuntime,
) -> Result<(), Fail> {
    let reading = Reading {
        large: AtomicU64::new(0),
        small_was_told: AtomicBool::new(false),
    };
    let body = vec![in rt.alloc(); b'x'; MOST_BODY]?;
    let large: [&[u8]; 2] = [LARGE_CALL, body.as_slice()];
    let mut workers = vec![in rt.alloc(); watching_worker(rt.alloc(), &reading, &[CALL])?]?;
    for _ in 0..3 {
        workers.push(watching_worker(rt.alloc(), &reading, &large)?)?;
    }
    let Ok(all) = serve_doors(&rt, rt.alloc(), workers) else {
        return Err(Fail::from("no memory"));
    };
    assert_eq!(rt; all.len(), 4);
    for Worked {
        door,
        teller,
        tally,
    } in &all {
        assert!(rt; teller.saw_it);
        assert_eq!(rt; tally.calls, 1);
        check_replies(&rt, door, &[Some(1)]);
    }
    Ok(())
}

/// A client that has sent one call and sends no more.
fn caller<R: Net>(rt: &R, address: SocketAddr) -> io::Result<R::Stream> {
    let mut stream = TcpStream::connect(rt, address)?;
    stream.write_all(CALL)?;
    stream.shutdown(Shutdown::Write)?;
    Ok(stream)
}

/// The reply to one call comes out of a stream, and then its end.
fn check_reply<S: Read>(rt: &impl Abort, alloc: Global, stream: &mut S) -> io::Result<()> {
    let mut reply = Vec::new(alloc);
    stream.read_to_end(&mut reply)?;
    assert_eq!(rt; reply.as_slice(), Standin::Spent.bytes(false));
    Ok(())
}

#[test]
fn doors_over_one_listener_are_served(rt: HostRuntime) -> Result<(), Fail> {
    let listener = TcpListener::bind(&rt, "127.0.0.1:0")?;
    let address = listener.local_addr()?;
    let mut first = caller(&rt, address)?;
    let mut second = caller(&rt, address)?;
    let mut workers = Vec::new(rt.alloc());
    for _ in 0..2 {
        workers.push(Worker {
            door: TcpDoor::new(&listener, Some(1)),
            teller: Shut { asked: 0 },
        })?;
    }
    let Ok(all) = serve_doors(&rt, rt.alloc(), workers) else {
        return Err(Fail::from("no memory"));
    };
    for worked in &all {
        assert_eq!(rt; (worked.tally.calls, worked.teller.asked), (1, 1));
        assert!(rt; !worked.tally.failed);
    }
    check_reply(&rt, rt.alloc(), &mut first)?;
    check_reply(&rt, rt.alloc(), &mut second)?;
    Ok(())
}
