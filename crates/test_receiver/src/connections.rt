//! A connection whose bodies a seat answers.

use crate::messages::{UP, has_samples, standard};
use crate::seats::{Talk, answered, blank};
use rw_test_parts::WORD_OF_ONE;
use std::marker::Brand;
use std::test::Fail;

/// A request of the body `ONE`.
const REQUEST: &[u8] =
    b"POST /api/v1/write HTTP/1.1\r\nConnection: close\r\nContent-Length: 32\r\n\r\n\n\x1e\n\x0e\n\x08__name__\x12\x02up\x12\x0c\x09\x00\x00\x00\x00\x00\x00\xf0?\x10\xe8\x07";

const REPLY: &[u8] = b"HTTP/1.1 204 No Content\r\nConnection: close\r\n\r\n";

#[test]
fn a_seat_answers_a_connection(rt: HostRuntime) -> Result<(), Fail> {
    let alloc = rt.alloc();
    let blank = blank(alloc, 2)?;
    let head = standard(alloc)?;
    let talk = Talk::Connection(REQUEST, REPLY, 1);
    let (is_so, head) = answered::<Brand, HostRuntime>(&rt, alloc, blank, head, talk);
    assert!(rt; is_so == Some(true) && has_samples(alloc, &head, UP, &[(1000, WORD_OF_ONE)]));
    Ok(())
}
