//! Opens the store of a run.

ghost use Rattle.std.specs.Prelude.{◌≡◌, ◌⊎◌, IfOk, IfErr, IfSome};
ghost use Rattle.sqlite.specs.Files.{over_files};
ghost use Rattle.sqlite.specs.Held as connection;
ghost use Rattle.sqlite.specs.State.{HasCleanDisk};
ghost use Rattle.sqlite.specs.WalFiles.{image_at};
ghost use Rattle.pgapply.specs.Stored.{IsOwnFault};
ghost use Rattle.pgapply.specs.declared.fault.StoreFault.{StoreFault as Reason};
ghost use Rattle.pgapply.specs.declared.fault.StoreFault.TheVariants.{NotAStore};
ghost use Rattle.pgstore.specs.Reopened.{HoldsContent, IsAsLeft, StaysAsFound};
ghost use Rattle.pgstore.specs.StoreValue.{begun_at, IsHonest, Serves};
ghost use Rattle.pgruns.specs.Left.{nothing_is_left};

use pgapply::StoreFault;
use pgstore::{Refusal, Store};
use pgsystem::new_file::{make_file, ready_file};
use sqlite::{Connection, FileFrom, FileStore, Start, Unknown};
use std::alloc::Global;

/// The connection to files that hold no store, or None where they couldn't be opened.
pub type LeftUnopened<F> = Option<Connection<FileStore<FileFrom<F>>>>;

/// The store of a run, which is still to be opened on files whose content `F` stands for.
///
/// That a store can't be opened for a reason is a fact that opening it alone gives. So a run over
/// any opening is proved to tell the reason that it got.
pub trait Opening<F: Start> {
    /// That it can't be opened for this reason.
    ghost fails: { Self → Reason → Type 0 };

    /// Opens it. Where no store is opened, files that were stay as they were found.
    fn open(
        self,
        alloc: Global,
    ) -> Result<Store<FileStore<FileFrom<F>>>, (Refusal, LeftUnopened<F>)>
        ensures serves { IfOk result (λ store. IsHonest over_files store →
            Serves over_files store) }
        ensures stood { IfOk result (λ store. IsHonest over_files store →
            HoldsContent over_files (image_at F.Start) store) }
        ensures begun { IfOk result (λ store. store.group ≡ begun_at store.position) }
        ensures unchanged { IfErr result (λ e. IfSome e.1 (λ conn.
            HasCleanDisk (connection.state over_files conn) →
            StaysAsFound over_files (image_at F.Start) conn)) }
        ensures failed { IfErr result (λ e. fails self e.0) };
}

/// The store in the file at a path, as `Store::open_or_return` opens it, with so many of its pages
/// in memory. `start` stands for what the files hold, for any file it is `Unknown`.
pub struct StoreFile<'p, F: Start> {
    /// The system.
    pub rt: &'p HostRuntime,
    /// The path of the file.
    pub path: &'p str,
    /// So many pages of it are kept in memory.
    pub cache: usize,
    /// What the files hold.
    pub start: F,
    /// Whether the file is made where it isn't there.
    pub is_made: bool,
}

/// Readies the file at a path, which is made where it isn't there, if it is to be.
fn ready(rt: &HostRuntime, path: &str, is_made: bool) -> Result<(), StoreFault>
    ensures { IfErr result (λ fault. IsOwnFault fault ⊎ (fault ≡ StoreFault.NotAStore)) }
{
    if is_made {
        make_file(rt, path)
    } else {
        ready_file(rt, path)
    }
}

impl<F: Start> Opening<F> for StoreFile<'_, F> {
    ghost fails = { λ _ f. IsOwnFault f ⊎ (f ≡ NotAStore) };

    fn open(
        self,
        alloc: Global,
    ) -> Result<Store<FileStore<FileFrom<F>>>, (Refusal, LeftUnopened<F>)> {
        let StoreFile {
            rt,
            path,
            cache,
            start,
            is_made,
        } = self;
        if let Err(fault) = ready(rt, path, is_made) {
            return Err((Refusal::new(fault), None));
        }
        Store::open_or_return(alloc, rt, path, cache, start)
    }
}

/// What files hold that a run of a store left so.
pub trait AsLeft: Start {
    /// It is as a run left it.
    ghost left: { IsAsLeft (image_at Self.Start) };
}

/// For `main`, to which any file may come: nobody but its caller knows what that holds.
impl AsLeft for Unknown {
    ghost left = { nothing_is_left };
}

/// The store in a file that a run of a store left as it is: opened as
/// `Store::open_trusted_or_return` opens it, which reads no row.
///
/// That the files are as a run left them (`F`) is the premise of all that is said of a run over it.
pub struct TrustedFile<'p, F: AsLeft> {
    /// The file.
    pub file: StoreFile<'p, F>,
}

impl<F: AsLeft> Opening<F> for TrustedFile<'_, F> {
    ghost fails = { λ _ f. IsOwnFault f ⊎ (f ≡ NotAStore) };

    fn open(
        self,
        alloc: Global,
    ) -> Result<Store<FileStore<FileFrom<F>>>, (Refusal, LeftUnopened<F>)> {
        let TrustedFile { file } = self;
        let StoreFile {
            rt,
            path,
            cache,
            start,
            is_made,
        } = file;
        if let Err(fault) = ready(rt, path, is_made) {
            return Err((Refusal::new(fault), None));
        }
        Store::open_trusted_or_return(alloc, rt, path, cache, start)
    }
}
