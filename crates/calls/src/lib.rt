// The public calls: a request, a response, a block of headers alone and a chunk size line. They demand nothing of the caller, and
// each contract says what the answer is: what the reader answers, what that means in the grammar's words, by the rules that the settings
// choose, and what is true of an error's position.
#![tactic(auto)]

ghost use Rattle.std.specs.Prelude.{◌≡◌, [], ◌/◌, length};
ghost use Rattle.rules.specs.Rules.{default};
ghost use Rattle.rules.specs.Settings.{request_rules, response_rules};
ghost use Rattle.grammar.specs.Message.{IsRequestHead, IsResponseHead};
ghost use Rattle.blocks.specs.Block.{block, Told as BlockTold};
ghost use Rattle.heads.specs.Head.{Told};
ghost use Rattle.heads.specs.Calls.{request as request_of, response as response_of};
ghost use Rattle.chunks.specs.Chunk.{chunk, size_of};
ghost use Rattle.agreement.specs.Known.{RequestSays, StatusSays, RequestInside, StatusInside};
ghost use Rattle.agreement.specs.Calls.{headers_of};
ghost use Rattle.agreement.specs.Promises.{HeadPromise, FaultPromise, BlockAlone, SaysNothing, LiesNowhere, ChunkPromise, SizeFaultPromise};

use blocks::Block;
use chunks::ChunkSize;
use heads::{RequestHead, ResponseHead};
use requestline::RequestLine;
use rules::Settings;
use statusline::StatusLine;

// A header takes four numbers of `slots`, which C lends: where its name is, the name's length, where its value is, the value's length.
pub fn request(s: &[u8], slots: &mut [usize], settings: Settings) -> RequestHead
    ensures told { Told (request_of (request_rules settings) (length slots.old / 4) s.now) result.end result.line result.count slots.old slots.new }
    ensures head_promise { HeadPromise (request_rules settings) (IsRequestHead (request_rules settings)) RequestSays (RequestInside (request_rules settings)) s.now slots.old result.end result.line result.count slots.new }
    ensures fault_promise { FaultPromise (request_rules settings) (length slots.old / 4) (request_of (request_rules settings) (length slots.old / 4)) s.now result.end }
{
    heads::read::<RequestLine>(s, slots, settings)
}

// No instance of one function with `request`: what each promises is what its callers read.
pub fn response(s: &[u8], slots: &mut [usize], settings: Settings) -> ResponseHead
    ensures told { Told (response_of (response_rules settings) (length slots.old / 4) s.now) result.end result.line result.count slots.old slots.new }
    ensures head_promise { HeadPromise (response_rules settings) (IsResponseHead (response_rules settings)) StatusSays StatusInside s.now slots.old result.end result.line result.count slots.new }
    ensures fault_promise { FaultPromise (response_rules settings) (length slots.old / 4) (response_of (response_rules settings) (length slots.old / 4)) s.now result.end }
{
    heads::read::<StatusLine>(s, slots, settings)
}

pub fn headers(s: &[u8], slots: &mut [usize]) -> Block
    ensures block_told { BlockTold (block default (length slots.old / 4) [] s.now 0) result slots.old slots.new }
    ensures head_promise { HeadPromise default BlockAlone SaysNothing LiesNowhere s.now slots.old result.end tt result.count slots.new }
    ensures fault_promise { FaultPromise default (length slots.old / 4) (headers_of (length slots.old / 4)) s.now result.end }
{
    heads::headers(s, slots)
}

pub fn chunk_size(s: &[u8]) -> ChunkSize
    ensures result_value { size_of result ≡ chunk default s.now }
    ensures chunk_promise { ChunkPromise s.now result }
    ensures size_fault_promise { SizeFaultPromise s.now result }
{
    chunks::chunk_size(s)
}
