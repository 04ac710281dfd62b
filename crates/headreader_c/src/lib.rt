// The functions of include/headreader.h: each is headreader's function of the same name, with its contract.
#![tactic(auto)]

ghost use Rattle.headreader.specs.Exports.{RequestExport, ResponseExport, HeadersExport, SizeExport};

#[unsafe(no_mangle)]
pub extern "C" fn hr_request(
    buf: &[u8],
    slots: &mut [usize],
    out: &mut [usize; 8],
    settings: u32,
) -> u32
    ensures { RequestExport buf.now slots.old result out.new slots.new settings }
{
    headreader::hr_request(buf, slots, out, settings)
}

#[unsafe(no_mangle)]
pub extern "C" fn hr_response(
    buf: &[u8],
    slots: &mut [usize],
    out: &mut [usize; 8],
    settings: u32,
) -> u32
    ensures { ResponseExport buf.now slots.old result out.new slots.new settings }
{
    headreader::hr_response(buf, slots, out, settings)
}

#[unsafe(no_mangle)]
pub extern "C" fn hr_headers(buf: &[u8], slots: &mut [usize], out: &mut [usize; 8]) -> u32
    ensures { HeadersExport buf.now slots.old result out.new slots.new }
{
    headreader::hr_headers(buf, slots, out)
}

#[unsafe(no_mangle)]
pub extern "C" fn hr_chunk_size(buf: &[u8], out: &mut [usize; 8]) -> u32
    ensures { SizeExport buf.now result out.new }
{
    headreader::hr_chunk_size(buf, out)
}
