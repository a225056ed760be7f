ghost use Rattle.std.specs.Prelude.{◌≡◌, ◌∷◌, [], ◌<◌, ◌≤◌, ◌*◌, ◌+◌, ◌/◌, ◌%◌, ◌==◌, ◌&&◌, ◌||◌, ℕ, length, get_or, slice_set, false, IfOk, OnOk, OnErr, IsTrue, ◌↔◌, bit_and, bit_or};
ghost use Rattle.std.specs.FinSet as set;
ghost use Rattle.pvd_type.specs.Sets.{bit, held, IsFirstFrom};
ghost use Rattle.smallvec.specs.SmallVec.{small_vec_len};

use crate::memory::NoMemory;
use smallvec::SmallVec;
use std::alloc::{AllocError, Global};
use std::marker::Model;

/// How many bits one word of a [`BitSet`] has.
const WORD: u32 = 64;

/// A set of numbers below 65,536, such as the field numbers that an update changed.
///
/// The bits lie packed in words of 64, the lowest number first. The first word stands in the value itself, so that the set of a
/// type's few nodes takes no memory. A contract sees the set alone.
/// pvAccess Protocol Specification, "BitSet".
#[derive(Drop)]
pub struct BitSet {
    words: SmallVec<u64, 1>,
}

impl Model for BitSet {
    ghost use Rattle.std.specs.Prelude.{◌≤◌, length};
    ghost use Rattle.std.specs.Ordering.{nat_cmp};
    ghost use Rattle.std.specs.FinSet as set;
    ghost use Rattle.std.specs.Coded.{coded_ℕ};
    ghost use Rattle.pvd_type.specs.Sets.{held};

    ghost Value = { set.FinSet nat_cmp };

    ghost coded = { set.code coded_ℕ };

    ghost view = { λ a. held a.words.items };

    ghost invariant = { λ a. length a.words.items ≤ 1024 };
}

impl BitSet {
    /// The empty set, which takes no memory yet. Its first word stands ready.
    pub fn new(alloc: Global) -> BitSet
        ensures { result ≡ set.empty }
    {
        BitSet {
            words: SmallVec::from_buf(alloc, [0]),
        }
    }

    /// The set of the numbers whose bits stand in these words, at most 1,024: the number of a bit is 64 times the word's place
    /// and the bit's place in the word, the lowest first. It takes no memory.
    pub fn from_words(words: Vec<u64>) -> BitSet
        requires { length words.items ≤ 1024 }
        ensures { result ≡ held words.items }
    {
        BitSet {
            words: SmallVec::from_vec(words),
        }
    }

    /// The words in which the set's bits stand, as [`BitSet::from_words`] takes them. There may be zeros past the greatest number.
    pub fn words(&self) -> &[u64]
        ensures set { held result.now ≡ self.now }
        ensures few { length result.now ≤ 1024 }
    {
        &self.words
    }

    /// Whether the set has this number, whatever its size.
    pub fn contains(&self, bit: u32) -> bool
        ensures { result ≡ set.contains self.now bit }
    {
        (word_at(&self.words, bit / WORD) >> (bit % WORD)) & 1 == 1
    }

    /// Whether the set has no number.
    pub fn is_empty(&self) -> bool
        ensures { IsTrue result ↔ (self.now ≡ set.empty) }
    {
        match self.first_from(0) {
            Some(_) => false,
            None => true,
        }
    }

    /// Adds a number. Without memory the set stays as it was.
    pub fn insert(&mut self, bit: u32) -> Result<(), NoMemory>
        requires { bit < 65536 }
        ensures ok { OnOk result (self.new ≡ set.insert self.old bit) }
        ensures err { OnErr result (self.new ≡ self.old) }
    {
        let place = (bit / WORD) as usize;
        widen(&mut self.words, place + 1)?;
        add_bits(&mut self.words, place, 1 << (bit % WORD));
        Ok(())
    }

    /// Adds the numbers from eight times `place` on whose bits a byte has, the lowest first. The byte 0 takes no memory.
    /// Without memory the set stays as it was.
    pub fn insert_byte(&mut self, place: u32, byte: u8) -> Result<(), NoMemory>
        requires { place < 8192 }
        ensures ok { OnOk result ((q : ℕ) → set.contains self.new q ≡ (set.contains self.old q || ((q / 8) == place && bit byte (q % 8)))) }
        ensures err { OnErr result (self.new ≡ self.old) }
    {
        if byte == 0 {
            return Ok(());
        }
        let word = (place / 8) as usize;
        widen(&mut self.words, word + 1)?;
        add_bits(&mut self.words, word, (byte as u64) << (place % 8 * 8));
        Ok(())
    }

    /// Adds the numbers of the other set. Without memory the set stays as it was.
    pub fn union(&mut self, other: &BitSet) -> Result<(), NoMemory>
        ensures ok { OnOk result (self.new ≡ set.union self.old other.now) }
        ensures err { OnErr result (self.new ≡ self.old) }
    {
        widen(&mut self.words, other.words.len())?;
        join(&mut self.words, &other.words);
        Ok(())
    }

    /// Keeps the numbers that the other set has too.
    pub fn meet(&mut self, other: &BitSet)
        ensures { self.new ≡ set.intersection self.old other.now }
    {
        keep(&mut self.words, &other.words);
    }

    /// A copy of the set.
    pub fn clone_in(&self, alloc: Global) -> Result<BitSet, NoMemory>
        ensures { IfOk result (λ s. s ≡ self.now) }
    {
        if self.words.len() == 1 {
            return Ok(BitSet {
                words: SmallVec::from_buf(alloc, [first_of(&self.words)]),
            });
        }
        Ok(BitSet {
            words: SmallVec::from_slice(alloc, &self.words)?,
        })
    }

    /// The eight bits from eight times `place` on, the lowest number in the lowest bit.
    pub fn byte(&self, place: u32) -> u8
        ensures { (k : ℕ) → k < 8 → bit result k ≡ set.contains self.now (8 * place + k) }
    {
        ((word_at(&self.words, place / 8) >> (place % 8 * 8)) % 256) as u8
    }

    /// The least number of the set at or above `start`.
    pub fn first_from(&self, start: u32) -> Option<u32>
        ensures { IsFirstFrom self.now start result }
    {
        let end = self.words.len() as u32 * WORD;
        let mut bit = start;
        while bit < end {
            let left = word_at(&self.words, bit / WORD) >> (bit % WORD);
            if left != 0 {
                return Some(bit + left.trailing_zeros());
            }
            bit = bit / WORD * WORD + WORD;
        }
        None
    }

    /// A number of bytes that cover the greatest number, at most 8,192. There may be fewer that do.
    pub fn bound(&self) -> u32
        ensures none { (q : ℕ) → 8 * result ≤ q → set.contains self.now q ≡ false }
        ensures few { result ≤ 8192 }
    {
        self.words.len() as u32 * 8
    }
}

/// The first word.
fn first_of(words: &SmallVec<u64, 1>) -> u64
    requires { small_vec_len words.now ≡ 1 }
    ensures { words.now.items ≡ result ∷ [] }
{
    words[0]
}

/// The word of a place, which is zero past the last one.
fn word_at(words: &SmallVec<u64, 1>, place: u32) -> u64
    ensures { result ≡ get_or words.now.items place 0 }
{
    match words.get(place as usize) {
        Some(word) => *word,
        None => 0,
    }
}

/// Makes room for `size` words, with zeros past those that were there.
fn widen(words: &mut SmallVec<u64, 1>, size: usize) -> Result<(), AllocError>
    requires { size ≤ 1024 }
    ensures same { OnOk result ((j : ℕ) → get_or words.new.items j 0 ≡ get_or words.old.items j 0) }
    ensures enough { OnOk result (size ≤ length words.new.items) }
    ensures few { length words.old.items ≤ 1024 → OnOk result (length words.new.items ≤ 1024) }
    ensures err { OnErr result (words.new.items ≡ words.old.items) }
{
    if words.len() < size {
        words.resize(size, 0)?;
    }
    Ok(())
}

/// Adds bits to the word of a place.
fn add_bits(words: &mut [u64], place: usize, bits: u64)
    requires { place < length words.old }
    ensures { words.new ≡ slice_set words.old place (bit_or (get_or words.old place 0) bits) }
{
    words[place] |= bits;
}

/// Adds the bits of the other words, of which there are no more.
fn join(words: &mut [u64], other: &[u64])
    requires { length other.now ≤ length words.old }
    ensures bits { (j : ℕ) → get_or words.new j 0 ≡ bit_or (get_or words.old j 0) (get_or other.now j 0) }
    ensures len { length words.new ≡ length words.old }
{
    for i in 0..other.len() {
        words[i] |= other[i];
    }
}

/// Keeps the bits that the other words have too.
fn keep(words: &mut [u64], other: &[u64])
    ensures bits { (j : ℕ) → get_or words.new j 0 ≡ bit_and (get_or words.old j 0) (get_or other.now j 0) }
    ensures len { length words.new ≡ length words.old }
{
    for i in 0..words.len() {
        words[i] &= if i < other.len() { other[i] } else { 0 };
    }
}
