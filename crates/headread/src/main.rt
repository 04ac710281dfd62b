// Headread, the program for people: reads a head or a chunk size line and prints what it found.
#![tactic(auto)]

mod arguments;
mod input;
mod settings;
mod system;

use arguments::{Call, Mode};
use input::Unreadable;
use page::text::{Page, ROOM, Room};
use reading::Given;
use std::fmt;
use writer::Unwritten;

fn main(rt: HostRuntime) {
    if let Some(call) = arguments::asked(&rt) {
        read(&rt, call);
    }
}

// Reads the file that an argument names, and shows what is in it.
fn read(rt: &HostRuntime, call: Call) {
    let Call {
        kind,
        mode,
        settings,
        file,
    } = call;
    let mut room = system::room();
    let Some(mut source) = input::open(rt, file, &mut room) else {
        return;
    };
    // one byte more than is taken, so that a longer input is seen
    let mut buffer = [0u8; 65537];
    match input::read(&mut source, &mut buffer) {
        Ok(bytes) => show(
            rt,
            mode,
            Given {
                kind,
                bytes,
                settings,
            },
        ),
        Err(Unreadable::Refused(error)) => input::refuse_read(rt, &source, error),
        Err(Unreadable::TooLong) => input::refuse_long(rt),
    }
}

// Nothing is written before all of it is there.
fn show(rt: &HostRuntime, mode: Mode, given: Given) {
    // one room for all that is written: a second one would be as much again of the stack
    let mut room = [0; ROOM];
    match mode {
        Mode::Report(audience) => {
            let mut page = Page::new(&mut room);
            let written = report::report(&mut page, audience, given);
            write_page(rt, &rt.stdout(), &page, written);
        }
        Mode::Plain => show_plain(rt, &mut room, given),
    }
}

// What has no plain form is told on standard error.
fn show_plain(rt: &HostRuntime, room: &mut Room, given: Given) {
    match restate::restate(room, given) {
        Ok(n) => match room.get(..n) {
            Some(text) => write(rt, &rt.stdout(), text),
            None => refuse_size(rt),
        },
        Err(Unwritten::Unwritable) => {
            let mut page = Page::new(room);
            let written = report::no_plain_form(&mut page, given);
            write_page(rt, &rt.stderr(), &page, written);
        }
        Err(Unwritten::Needs(_) | Unwritten::TooLong) => refuse_size(rt),
    }
}

fn write_page(rt: &HostRuntime, to: &impl Print, page: &Page, written: fmt::Result) {
    match written {
        Ok(()) => write(rt, to, page.text()),
        Err(_) => refuse_size(rt),
    }
}

fn write(rt: &HostRuntime, to: &impl Print, text: &[u8]) {
    if let Err(error) = to.write_all(text) {
        system::tell_why(rt, b"headread: what was found cannot be written", error);
    }
}

fn refuse_size(rt: &HostRuntime) {
    system::tell(
        rt,
        b"headread: what was found is longer than headread has room for; report this as a bug\n",
    );
}
