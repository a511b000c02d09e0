//! The classes of a program by number and by name.

ghost use Rattle.std.specs.Prelude.{◌≡◌, ◌<◌, ◌^◌, All, map, length, slice_get, slice_set, Some, None, IfOk, IfErr, OnOk, IfSome, IfNone, option_and_then};
ghost use Rattle.std.specs.Option.{option_map, option_copied};
ghost use Rattle.std.specs.Arc.{arc_value};
ghost use Rattle.program_rules.specs.Linked.{method_in};
ghost use Rattle.class_link.specs.View.{method_of};
ghost use Rattle.class_link.specs.Info.{IsInfo, class_of, link_body, file_in};
ghost use Rattle.class_table.specs.Table.{AreDistinct, IsLeastDuplicate, bodies_of, names_of, number_of, CanSwap, class_at, name_at, look, entries_at, methods_at, is_below, IsProgram, AreLinksOf};
ghost use Rattle.class_order.specs.Ranks.{HasRanks};
ghost use Rattle.class_table.specs.Faults.{look_of, AreProgram, IsFirstMissing, IsFirstCycle, IsFirstWrongKind};
ghost use Rattle.class_table.specs.Faults.{IfDuplicate, IfSuperMissing, IfSuperCycle, IfSuperKind};
ghost use Rattle.class_table.specs.Flaws.{IsFirstFaultOf, AreSoundSupers, IsTableOf};
ghost use Rattle.class_order.specs.Graph.{supers_of};
ghost use Rattle.class_table.specs.Numbers.{IsNumbering};
ghost use Rattle.class_table.specs.Adding.{shared};

use crate::fault::TableFault;
use crate::numbering::{infos, numbers};
use crate::supers::{Supers, all_links, links_at, stands_below};
use crate::verdict::first_fault;
use class_link::{ClassBody, ClassInfo, LibClass, LinkedMethod, Loaded};
use class_model::{Class, ClassId, Memory, Name, Seq};
use class_order::{Links, all_above, standings};
use std::alloc::Global;
use std::collections::BTreeMap;
use std::marker::Model;
use std::mem;
use std::sync::Arc;

/// The classes of a program. Each has a number: first those of class files in the order in which
/// they were handed in, then those of the library.
#[derive(Drop)]
pub struct Program {
    classes: Vec<Arc<ClassInfo, Global>>,
    numbers: Arc<BTreeMap<Name, u32>, Global>,
    supers: Arc<Supers, Global>,
}

impl Model for Program {
    ghost use Rattle.std.specs.Prelude.{List, map};
    ghost use Rattle.std.specs.Coded.{codes};
    ghost use Rattle.std.specs.Arc.{arc_value};
    ghost use Rattle.class_model.specs.contracts.attribute.Body as content;
    ghost use Rattle.class_model.specs.contracts.attribute.Code as written;
    ghost use Rattle.class_link.specs.Info.{Info};
    ghost use Rattle.class_table.specs.Kept.{IsKeptOf};

    ghost Value = { List Info };

    ghost coded = { Prim.hlevel (codes, content.the_row.coded, written.the_row.coded) };

    ghost view = { λ p. map (λ c. arc_value c) p.classes.items };

    ghost invariant = { λ p. IsKeptOf p.classes.items p.numbers p.supers };
}

impl Program {
    /// The program of these classes: exactly where no two have one name, each names supers that are
    /// there and of the right kind, and none stands above itself. Else the first of these faults is
    /// told, with the least class that has it. Where there are 2^32 classes or more, memory runs
    /// out. Faults are found in time by the number of classes, of names and of supers.
    pub fn build(
        alloc: Global,
        classes: Seq<Loaded>,
        library: Seq<LibClass>,
    ) -> Result<Program, TableFault>
        ensures classes { IfOk result (λ p. map (λ i. i.body) p ≡ bodies_of classes library) }
        ensures program { OnOk result (AreProgram (bodies_of classes library)) }
        ensures ranks { OnOk result (HasRanks (look_of (bodies_of classes library))) }
        ensures distinct { OnOk result (AreDistinct (names_of classes library)) }
        ensures meant { IfOk result (λ p. All IsInfo p) }
        ensures looks { IfOk result (λ p. look p ≡ look_of (bodies_of classes library)) }
        ensures duplicate { IfDuplicate result (IsLeastDuplicate (names_of classes library)) }
        ensures missing { IfSuperMissing result (IsFirstMissing (bodies_of classes library)) }
        ensures cycle { IfSuperCycle result (IsFirstCycle (bodies_of classes library)) }
        ensures kind { IfSuperKind result (IsFirstWrongKind (bodies_of classes library)) }
    {
        let infos = infos(alloc, classes.into_vec(), library.into_vec())?;
        match program_of(alloc, infos) {
            Ok(program) => Ok(program),
            Err(fault) => Err(fault),
        }
    }

    /// How many classes there are.
    pub fn len(&self) -> usize
        ensures value { result ≡ length self.now }
        ensures form { IsProgram self.now }
    {
        self.classes.len()
    }

    /// The class of a number, if there is one.
    pub fn get(&self, id: ClassId) -> Option<&ClassInfo>
        ensures place { option_copied result ≡ slice_get self.now id.0 }
        ensures form { IsProgram self.now }
    {
        Some(self.classes.get(id.0 as usize)?)
    }

    /// The class of a number.
    #[tactic(auto, using(crate::proofs::Places::name_of_class, crate::proofs::Places::look_at))]
    pub fn info(&self, id: ClassId) -> &ClassInfo
        requires { id.0 < length self.now }
        ensures place { slice_get self.now id.0 ≡ Some result.now }
        ensures class { look self.now (name_at self.now id.0) ≡ Some (class_of result.now) }
        ensures named { name_at self.now id.0 ≡ result.now.name }
        ensures of_body { class_of result.now ≡ link_body result.now.body }
    {
        let info = self.at(id);
        let _linked = info.linked();
        info
    }

    fn at(&self, id: ClassId) -> &ClassInfo
        requires { id.0 < length self.now }
        ensures place { slice_get self.now id.0 ≡ Some result.now }
        ensures form { IsProgram self.now }
    {
        &self.classes[id.0 as usize]
    }

    /// The class of a class file by its number; none for one of the library, and none for one that
    /// an edit made.
    pub fn file_class(&self, id: ClassId) -> Option<&Class>
        ensures { option_copied result ≡ option_and_then file_in (slice_get self.now id.0) }
    {
        match self.get(id)?.body() {
            ClassBody::File(loaded) => Some(&loaded.class),
            ClassBody::Edited(_) => None,
            ClassBody::Library(_) => None,
        }
    }

    /// The number of a class.
    #[tactic(auto, using(crate::proofs::Places::number_within, crate::proofs::Places::number_named))]
    pub fn find(&self, name: &Name) -> Option<ClassId>
        ensures found { IfSome result (λ id. number_of self.now name.now ≡ Some id.0) }
        ensures within { IfSome result (λ id. id.0 < length self.now) }
        ensures named { IfSome result (λ id. name_at self.now id.0 ≡ name.now) }
        ensures class { IfSome result (λ id. look self.now name.now ≡ class_at self.now id.0) }
        ensures absent { IfNone result (number_of self.now name.now ≡ None) }
        ensures nothing { IfNone result (look self.now name.now ≡ None) }
    {
        let number = self.number(name)?;
        Some(ClassId(number))
    }

    fn number(&self, name: &Name) -> Option<u32>
        ensures { result ≡ number_of self.now name.now }
    {
        self.numbers.get(name).copied()
    }

    /// Whether a class is another one or stands below it. It looks at each class above it at most
    /// once, and takes no memory.
    pub fn is_subtype(&self, class: ClassId, over: ClassId) -> bool
        requires class { class.0 < length self.now }
        requires over { over.0 < length self.now }
        ensures { result ≡ is_below self.now class.0 over.0 }
    {
        stands_below(&self.supers, class.0, over.0)
    }

    /// The supers of a class, by number.
    pub fn links(&self, id: ClassId) -> &Links
        requires { id.0 < length self.now }
        ensures { AreLinksOf self.now id.0 (supers_of result.now) }
    {
        links_at(&self.supers, id.0)
    }

    /// Puts a class in the place of another one of the same name, superclass and interfaces, and
    /// gives back the other. Both are of class files.
    pub fn swap(&mut self, id: ClassId, with: Arc<ClassInfo, Global>) -> Arc<ClassInfo, Global>
        requires { CanSwap self.old id.0 (arc_value with) }
        ensures program { self.new ≡ slice_set self.old id.0 (arc_value with) }
        ensures other { slice_get self.old id.0 ≡ Some (arc_value result) }
    {
        meant(&with);
        put(&mut self.classes, id.0 as usize, with)
    }

    /// An equal program. Its classes are shared, and none is copied.
    pub fn copy(&self) -> Result<Program, Memory>
        ensures { IfOk result (λ p. p ≡ self.now) }
    {
        let numbers = self.numbers.clone()?;
        let supers = self.supers.clone()?;
        let classes = copy_classes(&self.classes)?;
        Ok(Program {
            classes,
            numbers,
            supers,
        })
    }

    /// The method at a place of a class.
    #[tactic(auto, using(crate::proofs::Places::method_linked))]
    pub fn method(&self, class: ClassId, method: u32) -> Option<&LinkedMethod>
        ensures place { option_copied result ≡ slice_get (methods_at self.now class.0) method }
        ensures linked { class.0 < length self.now →
            option_map (method_of (entries_at self.now class.0)) (option_copied result)
            ≡ method_in (look self.now (name_at self.now class.0)) method }
    {
        self.get(class)?.linked().methods.get(method as usize)
    }
}

fn put(
    classes: &mut [Arc<ClassInfo, Global>],
    at: usize,
    with: Arc<ClassInfo, Global>,
) -> Arc<ClassInfo, Global>
    requires { at < length classes.old }
    ensures program { shared classes.new ≡ slice_set (shared classes.old) at (arc_value with) }
    ensures other { slice_get (map (λ c. arc_value c) classes.old) at ≡ Some (arc_value result) }
{
    mem::replace(&mut classes[at], with)
}

// A class has the name and the meaning of its body.
fn meant(info: &ClassInfo)
    ensures { IsInfo info.now }
{
    let _name = info.name();
    let _linked = info.linked();
}

// What stands above each of these classes, shared, or the first fault that they have as a program.
fn supers_of(
    alloc: Global,
    infos: &[Arc<ClassInfo, Global>],
    numbers: &BTreeMap<Name, u32>,
) -> Result<Arc<Supers, Global>, TableFault>
    requires few { length infos.now < 2 ^ 32 }
    requires meant { All IsInfo (shared infos.now) }
    requires numbers { IsNumbering numbers.now (shared infos.now) }
    ensures supers { IfOk result (λ s. AreSoundSupers (shared infos.now) (arc_value s)) }
    ensures fault { IfErr result (IsFirstFaultOf (shared infos.now)) }
{
    let links = all_links(alloc, infos, numbers)?;
    let found = standings(alloc, links.as_slice())?;
    if let Some(fault) = first_fault(alloc, infos, numbers, found.as_slice())? {
        return Err(fault);
    }
    let above = all_above(alloc, links.as_slice(), found.as_slice())?;
    Ok(Arc::new(alloc, Supers { links, above })?)
}

// The program of these classes.
fn program_of(alloc: Global, infos: Vec<Arc<ClassInfo, Global>>) -> Result<Program, TableFault>
    requires meant { All IsInfo (shared infos.items) }
    ensures program { IfOk result (IsTableOf (shared infos.items)) }
    ensures fault { IfErr result (IsFirstFaultOf (shared infos.items)) }
{
    let numbers = numbers(alloc, infos.as_slice())?;
    match supers_of(alloc, infos.as_slice(), &numbers) {
        Ok(supers) => Ok(Program {
            classes: infos,
            numbers,
            supers,
        }),
        Err(fault) => Err(fault),
    }
}

// These classes, shared once more.
fn copy_classes(
    classes: &Vec<Arc<ClassInfo, Global>>,
) -> Result<Vec<Arc<ClassInfo, Global>>, Memory>
    ensures { IfOk result (λ copy. shared copy.items ≡ shared classes.now.items) }
{
    Ok(classes.clone()?)
}
