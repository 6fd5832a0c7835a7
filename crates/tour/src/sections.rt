// The six sections of the tour that are held at the desk.
use crate::desk::Desk;
use crate::names::{MIDDLEMARCH, WALDEN};
use crate::questions::{
    ABOUT_NOTHING, ABOUT_WALDEN, AUTHORS, IN_1861, MOBY_DICK_IN_1872, OF_THE_SEA,
};
use quads::Pattern;
use std::io;

// More than any cursor has to list.
const ALL: u32 = 100;

pub(crate) fn show(desk: &mut Desk<'_, '_, impl Print>) -> io::Result<()> {
    leaf_through(desk)?;
    one_work(desk)?;
    two_at_once(desk)?;
    one_edition(desk)?;
    one_property(desk)?;
    beyond_the_desk(desk)
}

// Leafs through everything, and goes on from a later work.
fn leaf_through(desk: &mut Desk<'_, '_, impl Print>) -> io::Result<()> {
    desk.say("\n1. Leafing through everything.")?;
    desk.ask(0, Pattern::ANY)?;
    desk.say_left(0)?;
    desk.list(0, 4)?;
    desk.say_left(0)?;
    desk.skip_to(0, MIDDLEMARCH)?;
    desk.list(0, 2)?;
    desk.say_left(0)?;
    desk.skip_to(0, WALDEN)?;
    desk.list(0, 1)?;
    desk.close(0)
}

// All that is said of one work.
fn one_work(desk: &mut Desk<'_, '_, impl Print>) -> io::Result<()> {
    desk.say("\n2. What does the catalogue say of Walden, in any edition?")?;
    desk.ask(0, ABOUT_WALDEN)?;
    desk.list(0, ALL)?;
    desk.say_left(0)?;
    desk.skip_to(0, MIDDLEMARCH)?;
    desk.close(0)
}

// Two listings that go on side by side.
fn two_at_once(desk: &mut Desk<'_, '_, impl Print>) -> io::Result<()> {
    desk.say("\n3. Two questions at once: who wrote what, and which works are sea stories?")?;
    desk.ask(1, AUTHORS)?;
    desk.ask(2, OF_THE_SEA)?;
    take_turns(desk, 1, 2)?;
    desk.say_open(&mut [0; 8])?;
    desk.say_open(&mut [0; 1])?;
    desk.ask(1, OF_THE_SEA)?;
    desk.list(1, ALL)?;
    desk.close(1)?;
    desk.close(2)
}

// Lists a statement of one cursor, then one of the other, until the second has no more.
fn take_turns(desk: &mut Desk<'_, '_, impl Print>, one: u32, other: u32) -> io::Result<()> {
    for _ in 0..ALL {
        desk.list_one(one)?;
        if !desk.list_one(other)? {
            break;
        }
    }
    Ok(())
}

// All that one edition says.
fn one_edition(desk: &mut Desk<'_, '_, impl Print>) -> io::Result<()> {
    desk.say("\n4. What stood in the 1861 edition?")?;
    desk.ask(7, IN_1861)?;
    desk.list(7, ALL)?;
    desk.close(7)
}

// What one edition says of one property of one work.
fn one_property(desk: &mut Desk<'_, '_, impl Print>) -> io::Result<()> {
    desk.say("\n5. Under which headings did the 1872 edition have Moby-Dick?")?;
    desk.ask(0, MOBY_DICK_IN_1872)?;
    desk.list(0, ALL)?;
    desk.close(0)
}

// Requests that no desk can meet.
fn beyond_the_desk(desk: &mut Desk<'_, '_, impl Print>) -> io::Result<()> {
    desk.say("\n6. Requests that cannot be met.")?;
    desk.ask(8, Pattern::ANY)?;
    desk.ask(0, ABOUT_NOTHING)?;
    desk.say("Cursor 3 is asked for its next statement.")?;
    desk.list(3, 1)?;
    desk.say_open(&mut [0; 8])
}
