// Where a file is kept, and left when it is done with.
ghost use Rattle.std.specs.Prelude.{◌≡◌, ℕ, Option, Some, None, IfOk, IfSome, OnErr};
ghost use Rattle.sk_base.specs.Outside.{HasCause};
ghost use Rattle.sk_disk.specs.Shelves.{Gives};

use crate::Disk;
use sk_base::Failed;

/// Opens files. It may tell of the one that stands on it; a shelf of real files tells of none.
pub trait Shelf {
    type Disk: Disk + Drop;

    /// The file that stands on it, where it tells that.
    ghost stands: { Self → Option (Option Self.Disk) };

    /// How often it has failed. The count never falls.
    ghost shelf_faults: { Self → ℕ };

    /// The file of this path, which is made where there is none. A shelf that tells what stands on it gives that, and fails only where nothing does.
    fn open(&mut self, path: &str) -> Result<Self::Disk, Failed>
        ensures given { IfOk result (λ disk. Gives (stands self.old) disk (stands self.new)) }
        ensures err { OnErr result (stands self.new ≡ stands self.old) }
        ensures none { OnErr result (IfSome (stands self.old) (λ disk. disk ≡ None)) }
        ensures cause { HasCause (shelf_faults self.old) (shelf_faults self.new) result };

    /// Takes a file that is done with, which stands on the shelf from then on. Takes no memory.
    fn leave(&mut self, disk: Self::Disk)
        ensures kept { IfSome (stands self.new) (λ it. it ≡ Some disk) }
        ensures faults { shelf_faults self.new ≡ shelf_faults self.old };
}
