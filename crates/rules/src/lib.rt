// Which readings are allowed beyond the RFCs, and which are refused: the settings that a caller may choose, and, in specs/, the rules.
#![tactic(auto)]

// What a caller asks for; httparse's default has all of them off.
#[derive(Clone, Copy, Default)]
pub struct Settings {
    // a target is visible ASCII alone
    pub ascii_targets: bool,
    // several spaces may part the parts of a request line
    pub spaces_in_request_line: bool,
    // several spaces may part the parts of a status line
    pub spaces_in_status_line: bool,
    // spaces and tabs may stand before the first header's name, and a line of nothing else ends the head
    pub space_before_first_name: bool,
    // spaces and tabs may stand between a name and its colon, in responses
    pub spaces_after_name: bool,
    // a line that begins with a space or tab goes on with the value before it, in responses
    pub multiline_headers: bool,
    // a line that is no header is passed over, in requests
    pub ignore_invalid_headers_in_requests: bool,
    // and in responses
    pub ignore_invalid_headers_in_responses: bool,
}

// What of it concerns the lines of headers.
#[derive(Clone, Copy, Default)]
pub struct LineSettings {
    pub space_before_first_name: bool,
    pub spaces_after_name: bool,
    pub multiline_headers: bool,
    pub ignore_invalid_headers: bool,
}
