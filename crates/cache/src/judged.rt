// A call as the steps take it: judged to be in its written form, of which they rely on the reference.
ghost use Rattle.std.specs.Prelude.{◌≡◌, ◌<◌};

use blockcache::Call;

#[derive(Clone, Copy)]
pub(crate) struct Judged {
    pub(crate) call: Call,
    ghost reference: { call.reference < 64 },
}

impl Judged {
    // Its reference, an index of tables and slots.
    pub(crate) fn reference(&self) -> usize
        ensures { (result ≡ self.now.call.reference) × (result < 64) }
    {
        self.call.reference as usize
    }
}
