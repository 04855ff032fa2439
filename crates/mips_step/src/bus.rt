// What the processor reads and writes.
ghost use Rattle.std.specs.Prelude.{◌≡◌, ℕ, Bool};
ghost use Rattle.mips_table.specs.Processor.{Access};
ghost use Rattle.mips_step.specs.Ends.{BusReads};

/// A memory behind translation, with byte addresses.
///
/// No law ties two accesses, so ports and pages that share words are buses too. The three `may_` calls say whether
/// translation takes an aligned address.
pub trait Bus {
    /// Whether translation takes a fetch at an aligned address.
    ghost may_fetch: { Self → ℕ → Bool };

    /// Whether it takes a load there.
    ghost may_load: { Self → ℕ → Bool };

    /// Whether it takes a store there.
    ghost may_store: { Self → ℕ → Bool };

    /// loads bus address value after: a load may answer this value, and leave the bus so.
    ghost loads: { Self → ℕ → ℕ → Self → Type 0 };

    /// stores bus address value after: a store of the value may leave the bus so.
    ghost stores: { Self → ℕ → ℕ → Self → Type 0 };

    /// Whether the processor may fetch an instruction at an aligned address.
    fn may_fetch(&self, a: u32) -> bool
        ensures { result ≡ may_fetch self.now a };

    /// Whether it may load the word at an aligned address.
    fn may_load(&self, a: u32) -> bool
        ensures { result ≡ may_load self.now a };

    /// Whether it may store a word at an aligned address.
    fn may_store(&self, a: u32) -> bool
        ensures { result ≡ may_store self.now a };

    /// The word at an address, for a fetch or a load. The call may change the bus, as a read of an input port does.
    fn load(&mut self, address: u32) -> u32
        ensures { loads self.old address result self.new };

    /// Puts a word at an address.
    fn store(&mut self, address: u32, value: u32)
        ensures { stores self.old address value self.new };
}

/// A bus that is a memory with ports: what a read answers, and what is seen after a read or a store, are functions of what is
/// seen before. A read may take something, as from an input port, but it leaves which addresses are taken.
pub trait MemoryBus: Bus {
    /// What is seen of the bus: the words, or a record of the words and the ports.
    ghost View: { Type 0 };

    /// What is seen of this bus.
    ghost view: { Self → View };

    /// Which aligned addresses translation takes.
    ghost access: { View → Access };

    /// The word that a fetch or a load at an address gives.
    ghost word: { View → ℕ → ℕ };

    /// What is seen after a fetch or a load at an address: the same, where reads change nothing.
    ghost read: { View → ℕ → View };

    /// What is seen after a store of a value at an address: written view address value.
    ghost written: { View → ℕ → ℕ → View };

    /// Fetches are taken as access says.
    ghost fetches_seen: { (bus : Self) (address : ℕ) → Self.may_fetch bus address ≡ (access (view bus)).may_fetch address };

    /// Loads are taken as access says.
    ghost loads_seen: { (bus : Self) (address : ℕ) → Self.may_load bus address ≡ (access (view bus)).may_load address };

    /// Stores are taken as access says.
    ghost stores_seen: { (bus : Self) (address : ℕ) → Self.may_store bus address ≡ (access (view bus)).may_store address };

    /// A load answers the word, and reads.
    ghost reads: { (bus : Self) (a v : ℕ) (after : Self) → Self.loads bus a v after → BusReads word read (view bus) a v (view after) };

    /// A store writes.
    ghost writes: { (bus : Self) (a v : ℕ) (after : Self) → Self.stores bus a v after → view after ≡ written (view bus) a v };

    /// A load leaves which addresses are taken.
    ghost access_stays: { (bus : Self) (a v : ℕ) (after : Self) → Self.loads bus a v after → access (view after) ≡ access (view bus) };
}
