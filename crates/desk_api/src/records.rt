// The records of a site, by number and by name.
ghost use Rattle.std.specs.Prelude.{◌≡◌, ◌<◌, ◌≤◌, [], true, IfOk, IfErr, OnErr, OnOk, IsTrue, None, Some, length, false, slice_get};
ghost use Rattle.std.specs.List.{list_all};
ghost use Rattle.std.specs.String.{string_eq};
ghost use Rattle.indexmap.specs.IndexMap.{insert_entry};
ghost use Rattle.db_load.specs.Forms.{is_among};
ghost use Rattle.desk_api.specs.Loading.{fault_in, first_fault};
ghost use Rattle.desk_api.specs.Records.{AreNew, IsFaultIn, IsFirstFault, channel_at, records_of, with_one, with_record};
ghost use Rattle.desk_api.specs.Sites as sites;
ghost use Rattle.desk_api.specs.Sites.{first_named, names_from};
ghost use Rattle.desk_api.specs.Types.{type_shown};
ghost use Rattle.pvd_type.specs.Numbers.{leaves};
ghost use Rattle.group_view.specs.Seen.{configs_seen};
ghost use Rattle.journal_core.specs.Legality.{AreValid};
ghost use Rattle.rec_kinds.specs.Building.{IsBuildFault};
ghost use Rattle.rec_kinds.specs.Validity.{IsValid};

use crate::channel::{Channel, ChannelKind};
use crate::fault::SiteFault;
use indexmap::IndexMap;
use pvd_type::{BitSet, NoMemory, PvType};
use rec_fields::type_of;
use rec_kinds::{BuildFault, RecConfig, RecState, RecText, build, longout};
use std::alloc::Global;
use std::marker::Model;
use std::sync::Arc;

/// Why a record can't be built: memory ran out, or its fields are at fault.
fn unbuilt(alloc: Global, stated: &RecText, fault: BuildFault) -> SiteFault
    requires { IsBuildFault stated.now.kind stated.now.fields fault }
    ensures { IsFaultIn stated.now result }
{
    if let BuildFault::NoMemory = fault {
        return SiteFault::NoMemory;
    }
    match stated.name.clone_in(alloc) {
        Ok(name) => SiteFault::Build(name, fault),
        Err(_) => SiteFault::NoMemory,
    }
}

/// How a record is configured, the state that it opens with, the type that it shows and the leaves of that.
#[derive(Drop)]
struct Served {
    config: Arc<RecConfig>,
    opening: RecState,
    ty: PvType,
    leaves: BitSet,
}

/// Lets a value go in a function of its own, since its parts would else be let go one by one in the caller's proof.
pub(crate) fn discard<T: Drop>(_value: T) {}

/// Puts a record into a map under its name.
fn put_in(
    records: &mut IndexMap<String, Served>,
    name: String,
    served: Served,
) -> Result<(), NoMemory>
    ensures ok { OnOk result (records.new.entries ≡ insert_entry string_eq records.old.entries name served) }
    ensures err { OnErr result (records.new.entries ≡ records.old.entries) }
{
    match records.insert(name, served) {
        Ok(replaced) => {
            discard(replaced);
            Ok(())
        }
        Err(failed) => {
            discard(failed);
            Err(NoMemory)
        }
    }
}

/// Records under their names, numbered from 0 in the order in which they were added.
#[derive(Drop)]
pub(crate) struct Records {
    by_name: IndexMap<String, Served>,
}

impl Model for Records {
    ghost use Rattle.std.specs.Prelude.{◌≡◌, ◌≤◌, [], true, length, map, string_bytes};
    ghost use Rattle.std.specs.List.{list_all};
    ghost use Rattle.journal_core.specs.Legality.{AreValid};
    ghost use Rattle.pvd_type.specs.Numbers as numbers;
    ghost use Rattle.rec_fields.specs.Types.{record_tree};
    ghost use Rattle.desk_api.specs.Sites.{is_record_name};
    ghost use Rattle.desk_api.specs.declared.history.SiteData.{SiteData};

    ghost Value = { SiteData };

    ghost view = { λ r. record { names = map (λ e. string_bytes e.0) r.by_name.entries; configs = map (λ e. e.1.config.value) r.by_name.entries; opening = map (λ e. e.1.opening) r.by_name.entries; groups = [] } };

    ghost invariant = { λ r. AreValid (map (λ e. e.1.config.value) r.by_name.entries) (map (λ e. e.1.opening) r.by_name.entries) × (map (λ e. e.1.ty) r.by_name.entries ≡ map (λ e. record_tree e.1.config.value) r.by_name.entries) × (list_all is_record_name (map (λ e. string_bytes e.0) r.by_name.entries) ≡ true) × (length r.by_name.entries ≤ 4000) × (map (λ e. e.1.leaves) r.by_name.entries ≡ map (λ e. numbers.leaves (record_tree e.1.config.value)) r.by_name.entries) };
}

impl Records {
    /// No records.
    pub(crate) fn new(alloc: Global) -> Records
        ensures { result ≡ records_of [] }
    {
        Records {
            by_name: IndexMap::new(alloc),
        }
    }

    /// One longout of this name, which opens with this value.
    pub(crate) fn of_longout(alloc: Global, name: &str, value: i32) -> Result<Records, NoMemory>
        requires { IsTrue (sites.is_record_name name.now) }
        ensures { IfOk result (λ r. r ≡ sites.single name.now value) }
    {
        let mut records = Records::new(alloc);
        let (config, opening) = longout(alloc, value)?;
        records.insert(alloc, name, config, opening)?;
        Ok(records)
    }

    /// The records that a text states, in order, up to the first that can't be built.
    pub(crate) fn of_texts(alloc: Global, texts: &[RecText]) -> Result<Records, SiteFault>
        requires new { AreNew [] texts.now }
        requires few { length texts.now ≤ 4000 }
        ensures ok { IfOk result (λ r. (first_fault texts.now ≡ None) × (r ≡ records_of texts.now)) }
        ensures fault { IfErr result (IsFirstFault texts.now) }
    {
        let mut records = Records::new(alloc);
        for stated in texts.iter() {
            if let Err(fault) = records.add(alloc, stated) {
                return Err(fault);
            }
        }
        Ok(records)
    }

    /// Adds the record that a text states, or tells why it can't be built.
    pub(crate) fn add(&mut self, alloc: Global, stated: &RecText) -> Result<(), SiteFault>
        requires named { IsTrue (sites.is_record_name stated.now.name) }
        requires fresh { is_among stated.now.name self.old.names ≡ false }
        requires few { length self.old.names < 4000 }
        ensures ok { OnOk result (self.new ≡ with_record self.old stated.now) }
        ensures faultless { OnOk result (fault_in stated.now ≡ None) }
        ensures fault { IfErr result (IsFaultIn stated.now) }
    {
        let (config, opening) = match build(alloc, stated.kind, stated.fields.as_slice()) {
            Ok(built) => built,
            Err(fault) => return Err(unbuilt(alloc, stated, fault)),
        };
        self.insert(alloc, stated.name.as_str(), config, opening)?;
        Ok(())
    }

    /// Adds a record with its configuration and the state that it opens with.
    fn insert(
        &mut self,
        alloc: Global,
        name: &str,
        config: RecConfig,
        opening: RecState,
    ) -> Result<(), NoMemory>
        requires named { IsTrue (sites.is_record_name name.now) }
        requires fresh { is_among name.now self.old.names ≡ false }
        requires few { length self.old.names < 4000 }
        requires valid { IsValid config opening }
        ensures { OnOk result (self.new ≡ with_one self.old name.now config opening) }
    {
        let name = String::from_str(alloc, name)?;
        let ty = type_of(alloc, &config)?;
        let leaves = ty.leaves(alloc)?;
        let served = Served {
            config: Arc::new(alloc, config)?,
            opening,
            ty,
            leaves,
        };
        put_in(&mut self.by_name, name, served)
    }

    /// The number of records.
    pub(crate) fn len(&self) -> usize
        ensures names { result ≡ length self.now.names }
        ensures opening { result ≡ length self.now.opening }
        ensures valid { AreValid self.now.configs self.now.opening }
        ensures few { result ≤ 4000 }
    {
        self.by_name.len()
    }

    /// The channel that a name stands for: a record's name, alone or with `.VAL`, or with `.DESC`, which is its description. None
    /// exactly for every other name.
    pub(crate) fn find(&self, name: &str) -> Option<Channel>
        ensures { result ≡ first_named name.now (names_from 0 self.now.names) }
    {
        if let Some(record) = name.strip_suffix(".DESC") {
            return self.channel(ChannelKind::Desc, record);
        }
        if let Some(record) = name.strip_suffix(".VAL") {
            return self.channel(ChannelKind::Rec, record);
        }
        self.channel(ChannelKind::Rec, name)
    }

    /// The channel of this kind on the record of this name. None exactly where no record has it.
    fn channel(&self, kind: ChannelKind, name: &str) -> Option<Channel>
        ensures found { result ≡ channel_at kind 0 self.now.names name.now }
        ensures named { list_all sites.is_record_name self.now.names ≡ true }
    {
        match self.by_name.get_index_of(name) {
            Some(number) => Some(Channel {
                kind,
                number: number as u32,
            }),
            None => None,
        }
    }

    /// How the records are configured, in their order. The configurations are shared and not copied.
    pub(crate) fn configs(&self, alloc: Global) -> Result<Vec<Arc<RecConfig>>, NoMemory>
        ensures { IfOk result (λ configs. configs_seen configs.items ≡ self.now.configs) }
    {
        let count = self.by_name.len();
        let mut configs = Vec::with_capacity(alloc, count)?;
        for rec in 0..count {
            let (_, served) = self.by_name.get_index(rec).unwrap();
            configs.push(Arc::try_clone(&served.config)?)?;
        }
        Ok(configs)
    }

    /// The name of a record, by its number.
    pub(crate) fn name_at(&self, rec: usize) -> &str
        requires { rec < length self.now.names }
        ensures { slice_get self.now.names rec ≡ Some result.now }
    {
        let (name, _) = self.by_name.get_index(rec).unwrap();
        name.as_str()
    }

    /// The configuration of a record, by its number.
    pub(crate) fn config_at(&self, rec: usize) -> &RecConfig
        requires { rec < length self.now.names }
        ensures { slice_get self.now.configs rec ≡ Some result.now }
    {
        let (_, served) = self.by_name.get_index(rec).unwrap();
        &served.config
    }

    /// The state that a record opens with, by its number.
    pub(crate) fn opening_at(&self, rec: usize) -> &RecState
        requires { rec < length self.now.names }
        ensures { slice_get self.now.opening rec ≡ Some result.now }
    {
        let (_, served) = self.by_name.get_index(rec).unwrap();
        &served.opening
    }

    /// The type that a record shows, by its number.
    pub(crate) fn type_at(&self, rec: usize) -> &PvType
        requires { rec < length self.now.names }
        ensures { result.now ≡ type_shown (slice_get self.now.configs rec) }
    {
        let (_, served) = self.by_name.get_index(rec).unwrap();
        &served.ty
    }

    /// The leaves of the type that a record shows, by its number.
    pub(crate) fn leaves_at(&self, rec: usize) -> &BitSet
        requires { rec < length self.now.names }
        ensures { result.now ≡ leaves (type_shown (slice_get self.now.configs rec)) }
    {
        let (_, served) = self.by_name.get_index(rec).unwrap();
        &served.leaves
    }
}
