//! What is kept of the transactions that are open.

ghost use Rattle.std.specs.Prelude.{◌≡◌, ◌++◌, None, IfOk, OnOk, length};
ghost use Rattle.pgcompared.specs.Streams.{closed, digest_at, found, none_opened, with_block};
ghost use Rattle.pgcompared.specs.Streams.{with_block_item, with_cut, with_item, without};
ghost use Rattle.pgcompared.specs.Streams.{without_block, listed};
ghost use Rattle.pgrepeats.specs.Digests.{no_changes};

use crate::stream::{Stream, add_item};
use pgrepeats::{Change, Digest};
use std::alloc::{AllocError, Global};
use std::marker::Model;
use std::mem::replace;

/// What the changes come to of the pair, of the block's transaction, and of the other streamed ones
/// that are open. The one error of its calls is out of memory.
#[derive(Drop)]
pub(crate) struct Open {
    alloc: Global,
    limit: u64,
    pair: Digest,
    block: Option<Stream>,
    streams: Vec<Stream>,
}

impl Model for Open {
    ghost use Rattle.pgcompared.specs.Streams.{Opened};

    ghost Value = { Opened };

    ghost view = { λ o. record {
      limit = o.limit;
      pair = o.pair;
      block = o.block;
      streams = o.streams.items;
    } };
}

impl Open {
    /// None is open. Of each at most `limit` points are kept.
    pub(crate) fn new(alloc: Global, limit: u64) -> Open
        ensures { result ≡ none_opened limit }
    {
        Open {
            alloc,
            limit,
            pair: Digest::of_none(),
            block: None,
            streams: Vec::new(alloc),
        }
    }

    /// The allocator.
    pub(crate) fn alloc(&self) -> Global {
        self.alloc
    }

    /// A pair begins.
    pub(crate) fn begin(&mut self)
        ensures { self.new ≡ record self.old { pair = no_changes } }
    {
        self.pair = Digest::of_none();
    }

    /// An item of the pair, which is a change or none.
    pub(crate) fn add_to_pair(&mut self, change: Option<Change>)
        ensures { self.new ≡ record self.old { pair = with_item self.old.pair change } }
    {
        add_item(&mut self.pair, change);
    }

    /// What the changes of the pair come to.
    pub(crate) fn pair(&self) -> Digest
        ensures { result ≡ self.now.pair }
    {
        self.pair
    }

    // Takes out a streamed transaction.
    fn take(&mut self, top: u32) -> Result<Option<Stream>, AllocError>
        ensures taken { IfOk result (λ s. s ≡ found top None self.old.streams) }
        ensures left { OnOk result (self.new ≡ closed top self.old) }
    {
        let all = replace(&mut self.streams, Vec::new(self.alloc));
        let mut mine = None;
        for stream in all {
            if stream.top() == top {
                mine = Some(stream);
            } else {
                let Ok(()) = self.streams.push(stream) else {
                    return Err(AllocError);
                };
            }
        }
        Ok(mine)
    }

    fn put(&mut self, stream: Option<Stream>) -> Result<(), AllocError>
        ensures { OnOk result (self.new ≡ record self.old {
          streams = self.old.streams ++ listed stream;
        }) }
    {
        let Some(stream) = stream else {
            return Ok(());
        };
        match self.streams.push(stream) {
            Ok(()) => Ok(()),
            Err(_) => Err(AllocError),
        }
    }

    /// A block begins of this transaction.
    pub(crate) fn start(&mut self, top: u32) -> Result<(), AllocError>
        ensures { OnOk result (self.new ≡ with_block top self.old) }
    {
        let stream = match self.take(top)? {
            Some(stream) => stream,
            None => Stream::new(self.alloc, top),
        };
        self.block = Some(stream);
        Ok(())
    }

    /// The block ends.
    pub(crate) fn stop(&mut self) -> Result<(), AllocError>
        ensures { OnOk result (self.new ≡ without_block self.old) }
    {
        let stream = self.block.take();
        self.put(stream)
    }

    /// An item of the block, which is a change or none.
    pub(crate) fn add_to_block(
        &mut self,
        label: u32,
        change: Option<Change>,
    ) -> Result<(), AllocError>
        ensures { OnOk result (self.new ≡ with_block_item label change self.old) }
    {
        let Some(mut stream) = self.block.take() else {
            return Ok(());
        };
        stream.add(self.limit, label, change)?;
        self.block = Some(stream);
        Ok(())
    }

    /// A part of a streamed transaction is rolled back.
    pub(crate) fn cut(&mut self, top: u32, label: u32) -> Result<(), AllocError>
        ensures { OnOk result (self.new ≡ with_cut top label self.old) }
    {
        let Some(mut stream) = self.take(top)? else {
            return Ok(());
        };
        stream.cut(label)?;
        self.put(Some(stream))
    }

    /// A streamed transaction ends: what its changes come to, unless it had more points than are
    /// kept.
    pub(crate) fn close(&mut self, top: u32) -> Result<Option<Digest>, AllocError>
        ensures digest { IfOk result (λ d. d ≡ digest_at top self.old) }
        ensures left { OnOk result (self.new ≡ closed top self.old) }
    {
        match self.take(top)? {
            Some(stream) => Ok(stream.digest()),
            None => Ok(Some(Digest::of_none())),
        }
    }
}
