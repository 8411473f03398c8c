//! What holds of frames and payloads whatever program reads them. The functions do nothing: their
//! contracts are the laws.

ghost use Rattle.std.specs.Prelude.{◌≡◌, ◌≢◌, ◌<◌, ◌+◌, ◌⊎◌, ◌++◌, ◌∷◌, [], ℕ, List, false, length};
ghost use Rattle.std.specs.Prelude.{Ok, Err, None};
ghost use Rattle.pgwire.specs.Calls.{Call, Leads};
ghost use Rattle.pgwire.specs.Deframed.{Deframed, Stands, Waits, IsFed};
ghost use Rattle.pgwire.specs.Frames.{Frame, frame, IsAllowed, IsDeframedAs, HasFramingFault};
ghost use Rattle.pgwire.specs.Frames.{IsFramingFault, IsPartial};
ghost use Rattle.pgwire.specs.Payloads.{ServerMessage, payload, payload_at, IsServerMessage};
ghost use Rattle.pgwire.specs.Payloads.{HasPayloadFault};
ghost use Rattle.pgwire.specs.declared.fault.WireFault.{WireFault};
ghost use Rattle.pgwire.specs.declared.fault.WireFault.TheVariants.{Memory, TooLarge};

/// Two readings of one stream are one: equal bytes have the same frames and the same rest, however
/// they were split into chunks.
pub fn stream_has_one_reading()
    ensures { (max most : ℕ) (bytes : List ℕ) (fs gs : List Frame) (r q : List ℕ)
        → IsDeframedAs max bytes fs r → IsDeframedAs most bytes gs q → (fs ≡ gs) × (r ≡ q) }
{}

/// A stream has one first fault at most, and none where it can be read.
pub fn stream_has_one_fault()
    ensures one { (max : ℕ) (bytes : List ℕ) (x y : WireFault) → HasFramingFault max bytes x →
        HasFramingFault max bytes y → x ≡ y }
    ensures none { (max : ℕ) (bytes : List ℕ) (fs : List Frame) (r : List ℕ) (x : WireFault)
        → IsDeframedAs max bytes fs r → HasFramingFault max bytes x → ⊥ }
{}

/// What the first bytes tell: which frame they begin, and that less than it is shorter. A complete
/// frame isn't waited for. More bytes don't mend a fault, and the bytes of a frame break no rule
/// but the limit.
pub fn first_bytes_tell_the_frame()
    ensures same { (max most : ℕ) (f g : Frame) (x y : List ℕ)
        → IsAllowed max f → IsAllowed most g → frame f ++ x ≡ frame g ++ y → (f ≡ g) × (x ≡ y) }
    ensures shorter { (max most : ℕ) (g : Frame) (bytes more y : List ℕ)
        → IsAllowed most g → IsPartial max bytes → bytes ++ more ≡ frame g ++ y
        → length bytes < length (frame g) }
    ensures apart { (d : Deframed) (f : Frame) → Stands d f → Waits d → ⊥ }
    ensures mended { (max : ℕ) (bytes more : List ℕ) (x : WireFault)
        → IsFramingFault max false bytes x → IsFramingFault max false (bytes ++ more) x }
    ensures fault { (max most : ℕ) (g : Frame) (bytes more y : List ℕ) (x : WireFault)
        → IsAllowed most g → IsFramingFault max false bytes x → bytes ++ more ≡ frame g ++ y
        → (x ≡ TooLarge) × (max + 5 < length (frame g)) }
{}

/// A payload is read as what it encodes, and a fault of a payload is the one that is returned.
pub fn payload_has_one_reading()
    ensures message { (m : ServerMessage) → IsServerMessage m → payload_at (payload m) ≡ Ok m }
    ensures fault { (bytes : List ℕ) (x : WireFault) → HasPayloadFault bytes x →
        payload_at bytes ≡ Err x }
{}

/// Over any calls of a deframer since it was made or reset, the bytes taken are the frames that it
/// released and what it holds: one complete frame, or less than one.
pub fn frames_are_those_of_the_bytes()
    ensures { (max : ℕ) (calls : List Call) (taken : List ℕ) (released : List Frame) (d : Deframed)
        → Leads max calls taken released d
        → ((f : Frame) × Stands d f × IsDeframedAs max taken (released ++ f ∷ []) [])
        ⊎ (Waits d × IsDeframedAs max taken released d.held) }
{}

/// However a stream is split into chunks, and whenever its frames are released, they are the same,
/// and so is what is left.
pub fn cuts_change_nothing()
    ensures { (max : ℕ) (calls others : List Call) (taken : List ℕ) (fs gs : List Frame)
        (d e : Deframed) → Leads max calls taken fs d
        → Leads max others taken gs e → Waits d → Waits e → (fs ≡ gs) × (d.held ≡ e.held) }
{}

/// The first fault of a deframer is that of the bytes that it took and the piece in which it comes.
pub fn first_fault_is_that_of_the_bytes()
    ensures { (max : ℕ) (calls : List Call) (taken piece : List ℕ) (released : List Frame)
        (old new : Deframed) (x : WireFault)
        → Leads max calls taken released old → old.fault ≡ None → x ≢ Memory
        → IsFed old piece (Err x) new → HasFramingFault max (taken ++ piece) x }
{}
