//! Readers and writers that give few bytes, fail in mid-stream or have too little room.

use crate::rows::holds;
use rw_test_parts::Giving;
use rw_types::{Failed, ReadFault, Room, Sink, Std, read_to_end, write_all};
use std::alloc::Global;
use std::cell::Cell;
use std::io::{self, ErrorKind};

/// A reader and writer of std that is interrupted at every other call, and takes one byte a call,
/// up to its room.
#[derive(Drop)]
struct Interrupting {
    room: usize,
    turn: bool,
}

impl Interrupting {
    fn is_interrupted(&mut self) -> bool {
        self.turn = !self.turn;
        self.turn
    }
}

impl io::Read for Interrupting {
    fn read(&mut self, buf: &mut [u8]) -> io::Result<usize> {
        if self.is_interrupted() {
            return Err(ErrorKind::Interrupted.into());
        }
        if buf.is_empty() || self.room == 0 {
            return Ok(0);
        }
        self.room -= 1;
        buf[0] = b'x';
        Ok(1)
    }
}

impl io::Write for Interrupting {
    fn write(&mut self, buf: &[u8]) -> io::Result<usize> {
        if self.is_interrupted() {
            return Err(ErrorKind::Interrupted.into());
        }
        if buf.is_empty() || self.room == 0 {
            return Ok(0);
        }
        self.room -= 1;
        Ok(1)
    }

    fn flush(&mut self) -> io::Result<()> {
        Ok(())
    }
}

fn with_room(room: usize) -> Std<Interrupting> {
    Std::new(Interrupting { room, turn: false })
}

/// Returns whether readers give these texts, one after the other into one, and each read ends as
/// expected.
fn read_in_turn(alloc: Global) -> bool {
    let mut out = Vec::new(alloc);
    let whole = read_to_end(alloc, &mut b"whole".as_slice(), &mut out);
    let never = Cell::new(0);
    let slow = read_to_end(
        alloc,
        &mut Giving::new(b" byte by byte", 1, &never),
        &mut out,
    );
    let twelfth = Cell::new(12);
    let mut reader = Giving::new(b" and broken", 1, &twelfth);
    let broken = read_to_end(alloc, &mut reader, &mut out);
    let still_broken = read_to_end(alloc, &mut reader, &mut out);
    let interrupted = read_to_end(alloc, &mut with_room(3), &mut out);
    let failed = Err(ReadFault::Failed);
    out.as_slice() == b"whole byte by byte and brokenxxx".as_slice()
        && [whole, slow, broken, still_broken, interrupted]
            == [Ok(()), Ok(()), failed, failed, Ok(())]
}

#[test]
fn reads_to_the_end(rt: HostRuntime) {
    holds(&rt, read_in_turn(rt.alloc()));
}

fn fills_its_room(alloc: Global) -> bool {
    match Room::new(alloc, 8) {
        Ok(mut room) => {
            write_all(&mut room, b"exactly ").is_ok()
                && room.into_bytes().as_slice() == b"exactly ".as_slice()
        }
        Err(_) => false,
    }
}

/// Returns whether a room of seven bytes takes four of them, and then no more.
fn takes_one_of_two(room: &mut Room) -> bool {
    let first = write_all(room, b"one ");
    let second = write_all(room, b"more");
    let third = room.write(b"x");
    first == Ok(())
        && second == Err(Failed)
        && third == Err(Failed)
        && room.as_slice() == b"one ".as_slice()
}

fn fails_past_its_room(alloc: Global) -> bool {
    match Room::new(alloc, 7) {
        Ok(mut room) => takes_one_of_two(&mut room),
        Err(_) => false,
    }
}

fn fails_where_no_byte_is_taken() -> bool {
    let mut writer = with_room(4);
    let four = write_all(&mut writer, b"four");
    let none = write_all(&mut writer, b"");
    let more = write_all(&mut writer, b"more");
    let another = writer.write(b"x");
    four == Ok(())
        && none == Ok(())
        && more == Err(Failed)
        && another == Err(Failed)
        && writer.into_inner().room == 0
}

#[test]
fn writes_within_room(rt: HostRuntime) {
    holds(&rt, fills_its_room(rt.alloc()));
    holds(&rt, fails_past_its_room(rt.alloc()));
    holds(&rt, fails_where_no_byte_is_taken());
}
