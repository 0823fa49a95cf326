ghost use Rattle.std.specs.Prelude.{◌≡◌, ◌++◌, OnOk};
ghost use Rattle.chi_fmt.specs.Parts.{assigned_spots, element_spots, elements_spots};

use crate::draft::Draft;
use chi_base::NoMemory;
use chi_token::{Keyword, Sign};
use chi_tree::{Element, Target};

impl Draft {
    #[cycle(elements)]
    pub fn elements(&mut self, elements: &[Element]) -> Result<(), NoMemory>
        ensures { OnOk result (self.new.spots.items ≡ self.old.spots.items ++ elements_spots elements.now) }
    {
        let Some((first, more)) = elements.split_first() else {
            return Ok(());
        };
        self.element(first)?;
        for element in more {
            self.sign(Sign::Comma)?;
            self.element(element)?;
        }
        Ok(())
    }

    #[cycle(elements)]
    fn element(&mut self, element: &Element) -> Result<(), NoMemory>
        ensures { OnOk result (self.new.spots.items ≡ self.old.spots.items ++ element_spots element.now) }
    {
        match element {
            Element::Make {
                target,
                name,
                arguments,
            } => {
                self.assigned(target)?;
                self.call(name, arguments.as_slice())
            }
            Element::Unwind { walk, elements, .. } => {
                self.word(Keyword::UnwindWord)?;
                self.walk(walk)?;
                self.sign(Sign::Colon)?;
                self.elements(elements.as_slice())?;
                self.word(Keyword::EndWord)
            }
        }
    }

    fn assigned(&mut self, target: &Option<Target>) -> Result<(), NoMemory>
        ensures { OnOk result (self.new.spots.items ≡ self.old.spots.items ++ assigned_spots target.now) }
    {
        match target {
            Some(target) => {
                self.target(target)?;
                self.sign(Sign::Assign)
            }
            None => Ok(()),
        }
    }
}
