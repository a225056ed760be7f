// The records that are served, as they are configured.
ghost use Rattle.std.specs.Prelude.{◌≡◌, ◌<◌, ◌≤◌, ◌++◌, [], IfErr, IfOk, IsTrue, Ok, Some, length, option_map, option_copied, slice_get};
ghost use Rattle.std.specs.FinSet as set;
ghost use Rattle.std.specs.List.{AllByRecursion, range_with_len};
ghost use Rattle.group_view.specs.Groups.{IsOver};
ghost use Rattle.desk_api.specs.Grouping.{IsFaultOfGroups};
ghost use Rattle.db_load.specs.Forms.{is_special};
ghost use Rattle.db_load.specs.Loading.{RecordsOf};
ghost use Rattle.desk_api.specs.Loading.{Builds, groups_of};
ghost use Rattle.desk_api.specs.Records.{AreNew, IsLoadFault, records_of, unloaded, with_groups};
ghost use Rattle.desk_api.specs.Sites as sites;
ghost use Rattle.desk_api.specs.Types as types;
ghost use Rattle.journal_core.specs.Legality.{AreValid};
ghost use Rattle.nt_types.specs.Types.{scalar_tree};
ghost use Rattle.pvd_type.specs.declared.shape.Scalar.TheVariants.{Text};

use crate::channel::{Channel, ChannelKind};
use crate::fault::SiteFault;
use crate::groups::Groups;
use crate::records::Records;
use db_load::{LoadFault, read_records};
use group_view::Group;
use pvd_type::{BitSet, Name, NoMemory, PvType};
use rec_fields::desc_type;
use rec_kinds::{RecConfig, RecState, RecText};
use std::alloc::Global;
use std::marker::Model;

/// Whether a text may name a record: 1 to 60 bytes, none of them a blank, a quote, `.` or `$`
/// (EPICS record reference, "Record names").
pub fn is_record_name(text: &str) -> bool
    ensures { result ≡ sites.is_record_name text.now }
{
    let bytes = text.as_bytes();
    if bytes.is_empty() || bytes.len() > 60 {
        return false;
    }
    bytes.iter().all(|byte| !is_special(*byte))
}

/// A byte that no record's name has.
fn is_special(byte: u8) -> bool
    ensures { result ≡ is_special byte }
{
    matches!(byte, b' ' | b'\t' | b'"' | b'\'' | b'.' | b'$')
}

/// The fault of a site whose text has this fault.
fn unloaded(fault: LoadFault) -> SiteFault
    ensures { result ≡ unloaded fault }
{
    match fault {
        LoadFault::NoMemory => SiteFault::NoMemory,
        fault => SiteFault::Load(fault),
    }
}

/// The records that a text states.
fn load(alloc: Global, text: &str, macros: &[(Name, Name)]) -> Result<Vec<RecText>, SiteFault>
    ensures ok { IfOk result (λ records. RecordsOf macros.now text.now records.items) }
    ensures new { IfOk result (λ records. AreNew [] records.items) }
    ensures few { IfOk result (λ records. length records.items ≤ 4000) }
    ensures fault { IfErr result (IsLoadFault macros.now text.now) }
{
    match read_records(alloc, text, macros) {
        Ok(records) => Ok(records),
        Err(fault) => Err(unloaded(fault)),
    }
}

/// The groups of these records, built over them.
fn groups_over(alloc: Global, texts: &[RecText], records: &Records) -> Result<Groups, SiteFault>
    requires { records.now ≡ records_of texts.now }
    ensures ok { IfOk result (λ groups. groups_of texts.now ≡ Ok groups) }
    ensures over { IfOk result (λ groups. AllByRecursion (IsOver records.now.configs) groups) }
    ensures fault { IfErr result (IsFaultOfGroups texts.now) }
{
    let configs = records.configs(alloc)?;
    Groups::of_texts(alloc, texts, configs.as_slice())
}

/// So many numbers, from 0 on.
fn numbers(alloc: Global, count: usize) -> Result<Vec<u32>, NoMemory>
    requires { count ≤ 4000 }
    ensures { IfOk result (λ numbers. numbers.items ≡ range_with_len 0 count) }
{
    let mut numbers = Vec::with_capacity(alloc, count)?;
    for number in 0..count {
        numbers.push(number as u32)?;
    }
    Ok(numbers)
}

/// The service, if this is its name.
fn service_named(name: &str) -> Option<Channel>
    ensures { result ≡ sites.first_named name.now sites.services }
{
    if name == "server" {
        return Some(Channel {
            kind: ChannelKind::Service,
            number: 0,
        });
    }
    None
}

/// The records of a server, numbered from 0 in the order of their text, and the groups of these records, numbered from 0 in the
/// order in which the text first names them.
#[derive(Drop)]
pub struct Site {
    pub(crate) records: Records,
    pub(crate) groups: Groups,
    /// The numbers of the records, in order: the one record of a channel is lent from here.
    pub(crate) numbers: Vec<u32>,
    /// The type of every description.
    text: PvType,
    /// The leaves that a record triggers of a channel that doesn't show it: none.
    nothing: BitSet,
}

impl Model for Site {
    ghost use Rattle.std.specs.Prelude.{◌≡◌, length};
    ghost use Rattle.std.specs.FinSet as set;
    ghost use Rattle.std.specs.List.{AllByRecursion, range_with_len};
    ghost use Rattle.group_view.specs.Groups.{IsOver};
    ghost use Rattle.nt_types.specs.Types.{scalar_tree};
    ghost use Rattle.pvd_type.specs.declared.shape.Scalar.TheVariants.{Text};
    ghost use Rattle.desk_api.specs.Records.{with_groups};
    ghost use Rattle.desk_api.specs.declared.history.SiteData.{SiteData};

    ghost Value = { SiteData };

    ghost view = { λ s. with_groups s.records s.groups };

    ghost invariant = { λ s. (s.text ≡ scalar_tree Text) × (s.numbers.items ≡ range_with_len 0 (length s.records.names)) × AllByRecursion (IsOver s.records.configs) s.groups × (s.nothing ≡ set.empty) };
}

impl Site {
    /// The site of the records of a database text with these macros, whose values hold no line feed. The text is loaded first;
    /// then its records are built in their order, up to the first fault, and then their groups (QSRV manual, "Group PV
    /// definitions").
    pub fn build(alloc: Global, text: &str, macros: &[(Name, Name)]) -> Result<Site, SiteFault>
        ensures { Builds macros.now text.now result }
    {
        let texts = load(alloc, text, macros)?;
        let records = Records::of_texts(alloc, texts.as_slice())?;
        let groups = groups_over(alloc, texts.as_slice(), &records)?;
        Ok(Site::of(alloc, records, groups)?)
    }

    /// A site of one longout with this name, which opens with this value, and of no group.
    pub fn single(alloc: Global, name: &str, value: i32) -> Result<Site, NoMemory>
        requires { IsTrue (sites.is_record_name name.now) }
        ensures { IfOk result (λ s. s ≡ sites.single name.now value) }
    {
        let records = Records::of_longout(alloc, name, value)?;
        Site::of(alloc, records, Groups::none(alloc))
    }

    /// The site of these records and groups.
    fn of(alloc: Global, records: Records, groups: Groups) -> Result<Site, NoMemory>
        requires { AllByRecursion (IsOver records.configs) groups }
        ensures { IfOk result (λ s. s ≡ with_groups records groups) }
    {
        let numbers = numbers(alloc, records.len())?;
        Ok(Site {
            records,
            groups,
            numbers,
            text: desc_type(alloc)?,
            nothing: BitSet::new(alloc),
        })
    }

    /// The number of records. Each has a name, a configuration and a state at the opening that is valid for it, and there are at
    /// most 4,000.
    pub fn records(&self) -> usize
        ensures names { result ≡ length self.now.names }
        ensures opening { result ≡ length self.now.opening }
        ensures valid { AreValid self.now.configs self.now.opening }
        ensures few { result ≤ 4000 }
    {
        self.records.len()
    }

    /// The number of groups. Each is over the records of this site, and there are at most 1,024.
    pub fn groups(&self) -> usize
        ensures groups { result ≡ length self.now.groups }
        ensures over { sites.AreOver self.now }
        ensures few { result ≤ 1024 }
    {
        self.groups.len()
    }

    /// The channel of this name: a record, a record's name with `.VAL`, which is the same, or with `.DESC`, which is its
    /// description; or else the group of this whole name; or else, for `server`, the service. None exactly for every other name.
    /// It takes no memory, and a time that doesn't grow with the records and groups.
    pub fn find(&self, name: &str) -> Option<Channel>
        ensures { result ≡ sites.channel_named self.now name.now }
    {
        match self.records.find(name) {
            Some(channel) => Some(channel),
            None => self.find_other(name),
        }
    }

    /// The group of this name, or else the service.
    fn find_other(&self, name: &str) -> Option<Channel>
        ensures { result ≡ sites.first_named name.now (sites.group_names_from 0 self.now.groups ++ sites.services) }
    {
        match self.groups.find(name) {
            Some(channel) => Some(channel),
            None => service_named(name),
        }
    }

    /// The type of a channel's values. None exactly for the service.
    pub fn type_of(&self, channel: Channel) -> Option<&PvType>
        requires { IsTrue (sites.is_channel self.now channel) }
        ensures { option_map (λ t. t.now) result ≡ types.type_if_valued self.now channel }
    {
        let number = channel.number as usize;
        match channel.kind {
            ChannelKind::Rec => Some(self.records.type_at(number)),
            ChannelKind::Desc => Some(&self.text),
            ChannelKind::Group => Some(self.group(number).type_of()),
            ChannelKind::Service => None,
        }
    }

    /// The type of every description.
    pub(crate) fn text(&self) -> &PvType
        ensures { result.now ≡ scalar_tree Text }
    {
        &self.text
    }

    /// No leaf.
    pub(crate) fn no_leaf(&self) -> &BitSet
        ensures { result.now ≡ set.empty }
    {
        &self.nothing
    }

    /// The name of a record, by its number.
    pub fn name(&self, rec: usize) -> &str
        requires { rec < length self.now.names }
        ensures { slice_get self.now.names rec ≡ Some result.now }
    {
        self.records.name_at(rec)
    }

    /// The configuration of a record, by its number.
    pub fn config(&self, rec: usize) -> &RecConfig
        requires { rec < length self.now.names }
        ensures { slice_get self.now.configs rec ≡ Some result.now }
    {
        self.records.config_at(rec)
    }

    /// The state of a record at the opening, by its number.
    pub fn opening(&self, rec: usize) -> &RecState
        requires { rec < length self.now.names }
        ensures { slice_get self.now.opening rec ≡ Some result.now }
    {
        self.records.opening_at(rec)
    }

    /// The states of all records at the opening, in their order.
    pub fn opening_states(&self, alloc: Global) -> Result<Vec<RecState>, NoMemory>
        ensures states { IfOk result (λ states. states.items ≡ self.now.opening) }
        ensures valid { IfOk result (λ states. AreValid self.now.configs states.items) }
    {
        let count = self.records();
        let mut states = Vec::with_capacity(alloc, count)?;
        for rec in 0..count {
            states.push(self.opening(rec).clone_in(alloc)?)?;
        }
        Ok(states)
    }

    /// Where the port of a record leads, by the record's number. None exactly where it has none (EPICS record reference, "DTYP",
    /// "OUT").
    pub fn port(&self, rec: usize) -> Option<&str>
        requires { rec < length self.now.names }
        ensures { Some (option_copied result) ≡ option_map (λ config. config.port) (slice_get self.now.configs rec) }
    {
        self.config(rec).port()
    }

    /// A group, by its number. It is over the records of this site.
    pub fn group(&self, number: usize) -> &Group
        requires { number < length self.now.groups }
        ensures found { slice_get self.now.groups number ≡ Some result.now }
        ensures over { IsOver self.now.configs result.now }
    {
        self.groups.at(number)
    }

    /// The name of a group, by its number.
    pub fn group_name(&self, number: usize) -> &str
        requires { number < length self.now.groups }
        ensures { option_map (λ g. g.name) (slice_get self.now.groups number) ≡ Some result.now }
    {
        self.group(number).name()
    }
}
