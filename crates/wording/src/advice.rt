// What to do about an error, for a person.
ghost use Rattle.std.specs.Prelude.{◌≡◌};
ghost use Rattle.wording.specs.Advice.{for_header, for_request_line, for_status_line, remedy};

use expected::{Expected, InHeader, InRequestLine, InStatusLine};

pub fn advice(expected: Expected) -> &'static str
    ensures { result.now ≡ remedy expected }
{
    match expected {
        Expected::LineFeed =>
            "have the sender end each line in CR LF and send no other CR; don't pass the input on, since the next
            program may take what stands behind the CR for a line of its own",
        Expected::Request(place) => request_line(place),
        Expected::Status(place) => status_line(place),
        Expected::Header(place) => header(place),
        Expected::Size(_) =>
            "check that the input starts at the size line; else have the sender write it as 1a2b, then CR LF",
    }
}

fn request_line(place: InRequestLine) -> &'static str
    ensures { result.now ≡ for_request_line place }
{
    match place {
        InRequestLine::MethodStart | InRequestLine::Method =>
            "have the sender write the line as POST /orders HTTP/1.1, then CR LF; if the input is a response, call
            headread response",
        InRequestLine::TargetStart =>
            "have the sender write one space alone behind the method, as in POST /orders HTTP/1.1",
        InRequestLine::Target | InRequestLine::SpacedTarget =>
            "have the sender write the line as POST /orders HTTP/1.1, then CR LF, with nothing else in it",
        InRequestLine::AsciiTarget | InRequestLine::Utf8Target =>
            "have the sender write each byte of a target from 0x80 on as %XX, as in /orders/gr%C3%B6%C3%9Fe",
        InRequestLine::Version | InRequestLine::SpacedVersion =>
            "have the sender speak HTTP/1.1, and write a space in a target as %20",
        InRequestLine::LineEnd =>
            "have the sender end the request line right behind its version, in CR LF",
    }
}

fn status_line(place: InStatusLine) -> &'static str
    ensures { result.now ≡ for_status_line place }
{
    match place {
        InStatusLine::Version =>
            "have the sender speak HTTP/1.1; if the input is a request, call headread request",
        InStatusLine::Reason => "have the sender leave that byte out",
        _ => "have the sender write the line as HTTP/1.1 200 OK, then CR LF",
    }
}

fn header(place: InHeader) -> &'static str
    ensures { result.now ≡ for_header place }
{
    match place {
        InHeader::Value =>
            "have the sender leave that byte out; don't pass the head on, since the next program may end the value
            there",
        InHeader::NoNul =>
            "have the sender leave that byte out; don't pass the head on, since the next program may end the line
            there",
        InHeader::NoMore =>
            "look for a sender that repeats its headers; to read more, call the library with more slots",
        _ =>
            "have the sender start each header's line with its name, and the colon right behind it; don't mend the
            line and pass it on, since the next program may take it for another header",
    }
}
