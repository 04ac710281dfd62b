// The calls in numbers, for programs in C, which has no Result and no Option: each answer is a number and eight more. The contract of each
// says that these are the call's answer. A request and a response stay two functions: C has a name for each, and they differ in the call, in
// the numbers and in the contract, which is all there is.
#![tactic(auto)]

ghost use Rattle.headreader.specs.Exports.{RequestExport, ResponseExport, HeadersExport, SizeExport};

use parts::Unread;

pub fn hr_request(buf: &[u8], slots: &mut [usize], out: &mut [usize; 8], settings: u32) -> u32
    ensures { RequestExport buf.now slots.old result out.new slots.new settings }
{
    let head = calls::request(buf, slots, numbers::settings_of(settings));
    numbers::put_request(out, head);
    numbers::kind(head.end)
}

pub fn hr_response(buf: &[u8], slots: &mut [usize], out: &mut [usize; 8], settings: u32) -> u32
    ensures { ResponseExport buf.now slots.old result out.new slots.new settings }
{
    let head = calls::response(buf, slots, numbers::settings_of(settings));
    numbers::put_response(out, head);
    numbers::kind(head.end)
}

pub fn hr_headers(buf: &[u8], slots: &mut [usize], out: &mut [usize; 8]) -> u32
    ensures { HeadersExport buf.now slots.old result out.new slots.new }
{
    let block = calls::headers(buf, slots);
    *out = [numbers::position(block.end), block.count, 0, 0, 0, 0, 0, 0];
    numbers::kind(block.end)
}

pub fn hr_chunk_size(buf: &[u8], out: &mut [usize; 8]) -> u32
    ensures { SizeExport buf.now result out.new }
{
    match calls::chunk_size(buf) {
        Ok((size, end)) => {
            *out = [end, size as usize, 0, 0, 0, 0, 0, 0];
            0
        }
        Err(Unread::More) => {
            *out = [0, 0, 0, 0, 0, 0, 0, 0];
            1
        }
        Err(Unread::Bad(at)) => {
            *out = [at, 0, 0, 0, 0, 0, 0, 0];
            9
        }
    }
}
