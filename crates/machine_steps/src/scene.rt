//! What a call of a function of the JNI sees.

ghost use Rattle.std.specs.Prelude.{◌≡◌};
ghost use Rattle.world_values.specs.SoundWorlds.{IsSound};
ghost use Rattle.machine_answers.specs.Asked.{scene_of};
ghost use Rattle.machine_scenes.specs.Scenes.{scene_view};
ghost use Rattle.syntax.specs.Views.{unit_tree};

use crate::context::StepContext;
use heap::Addr;
use machine_scenes::activation::Activation;
use machine_scenes::references::References;
use machine_scenes::scene::Scene;
use machine_scenes::store::Store;

/// What a call of a thread sees.
#[inline(always)]
pub(crate) fn scene_of<'s>(
    context: StepContext<'s, '_>,
    store: &'s Store,
    pending: Option<Addr>,
    activation: &'s Activation,
) -> Scene<'s>
    ensures scene { scene_view result ≡ scene_of (unit_tree context.entry.program.now.unit) context.entry.world.now.classes
        store.now activation.now context.entry.thread pending }
    ensures sound { IsSound context.entry.world.now }
{
    Scene {
        items: context.program.items(),
        classes: context.world.classes(),
        heap: &store.heap,
        loaded: &store.loaded,
        references: References::new(
            &activation.slots.references,
            &activation.locals,
            &store.statics,
            &store.globals,
            &store.weaks,
        ),
        fields: &activation.slots.fields,
        buffers: &activation.slots.buffers,
        stack: &activation.stack,
        pending,
        monitors: &store.monitors,
        thread: context.thread,
    }
}
